// Statements that run no block, and what the others begin with: conditions, bounds, the values of a call. Contracts say that what is left of the
// variables, the cells and the lent trace bytes is what the definition gives on the tree that the words spell.
#![tactic(auto)]

use evaluator::CELLS;
use tables::programs::Program;
use tracing::Trace;

pub mod parts; // what statements are made of
pub mod statement_words; // assign, store and return

// The most values of a call.
pub const PARAMETERS: usize = 9;

// The body that is run: of procedure `me` of a program, with the ends of its blocks, under a budget of steps.
#[derive(Clone, Copy)]
pub struct Scope<'a> {
    pub program: Program<'a>,
    pub ends: &'a [u16],
    pub me: u32,
    pub budget: u32,
}

// What a run changes, whichever procedure's body it is in: the cells, the trace, the steps taken.
// (The trace by reference: with a Trace in it, what its bytes hold once the state is let go was tried, and not proved.)
#[derive(Drop)]
pub struct State<'c, 't, 'b> {
    pub cells: &'c mut [u32; CELLS],
    pub trace: &'t mut Trace<'b>,
    pub steps: u32,
}

// What a run of a statement or block comes to, where nothing stops it.
#[derive(Clone, Copy, PartialEq, Eq)]
pub enum Ran {
    On(usize), // on to the next: its place
    Back(u32), // a return: its value
}

// The bounds of a for, and the place after them.
#[derive(Clone, Copy, PartialEq, Eq)]
pub struct Bounds {
    pub from: u32,
    pub to: u32,
    pub next: usize,
}
