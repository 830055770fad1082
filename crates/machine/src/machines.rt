// The machine of an image, a turn of it, and what a call asks for.
ghost use Rattle.std.specs.Prelude.{◌≤◌};

use definitions::Answer;

// So many cells are few: a call on a small routine moves so many words from turn to turn, and not as many as a run has.
pub const FEW: usize = 64;

// The first `count` words are the cells of the image; those behind them mean nothing.
#[derive(Clone, Copy)]
pub struct Machine<const N: usize> {
    pub cells: [u32; N],
    pub count: usize,
    ghost within: { count ≤ N },
}

// The machine after a request, beside the request's answer.
#[derive(Clone, Copy)]
pub struct Turn<const N: usize> {
    pub machine: Machine<N>,
    pub answer: Answer,
}

// A call of a procedure on arguments, four bytes each, in at most `budget` steps.
#[derive(Clone, Copy)]
pub struct Call<'a> {
    pub procedure: u32,
    pub arguments: &'a [u8],
    pub budget: u32,
}
