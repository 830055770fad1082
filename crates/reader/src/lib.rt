// Reads an image of words: each read answers the place after what it read, or the refusal. What is read is the definition's tree;
// no tree is built, and two lent tables are filled for the passes after.
#![tactic(auto)]

mod words; // one word
mod ends; // the table of block ends
mod expressions; // expressions and the values of a call
pub mod statement_words; // statements and blocks
mod procedures; // types, procedures, arrays
pub mod image; // a whole image
