// The machine's requests on an image that was accepted: which cells it has, and what each request does with them.
#![tactic(auto)]

pub mod cells; // where the cells of an array begin
pub mod arguments; // the values that a call begins with, and its result
