// Running a body over the image's words: blocks run statements, and if, for and call statements run blocks. Contracts say that what is
// left of the variables, the cells and the lent trace bytes is what the definition gives on the tree that the words spell.
#![tactic(auto)]

mod blocks; // blocks, and the statements that run them
pub mod procedures; // a whole procedure, as a host's call runs it
