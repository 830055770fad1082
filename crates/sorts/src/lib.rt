// The checker's second group: no such variable or array (6), wrong sort (7), the loop-variable rule (8).
// Every function walks the words once, with a cursor, and carries the lowest fault so far.
#![tactic(auto)]

use definitions::Fault;
use operators::Sort;
use tables::Table;

mod expressions; // expressions
mod leaves; // statements that hold no block
mod statement_words; // statements that hold blocks, and blocks
mod mark_table; // what the fors of a procedure make of each of its variables
mod marks; // which variables are loop variables
pub mod procedures; // a whole image

// The procedure whose body is checked: its number of parameters, its result's type word.
#[derive(Clone, Copy)]
pub struct Scope {
    pub parameters: u32,
    pub result: u32,
}

// The words that a procedure's body is read by: its image with the table, the type words of its variables, its number. Not a Procedure, which
// asks that its image was read: mark_block and check_expression may not ask more than that their part was.
#[derive(Clone, Copy)]
pub struct Words<'a> {
    pub image: &'a [u32],
    pub table: &'a Table,
    pub types: &'a [u32],
    pub me: u32,
}

// What the walk of an expression gives: its sort, but for what names no variable; the place after it; the lowest fault so far.
#[derive(Clone, Copy)]
pub struct WalkedExpression {
    pub sort: Option<Sort>,
    pub next: usize,
    pub best: Fault,
}

// What the walk of a statement or block gives: the place after it, the lowest fault so far.
#[derive(Clone, Copy)]
pub struct Walked {
    pub next: usize,
    pub best: Fault,
}

// An expression with which a statement ends.
impl From<WalkedExpression> for Walked {
    ghost use Rattle.std.specs.Prelude.{◌≡◌};
    ghost use Rattle.sorts.specs.Walk.{walk};

    ghost from_gives = { λ e w. w ≡ walk e.next e.best };

    fn from(e: WalkedExpression) -> Walked {
        Walked {
            next: e.next,
            best: e.best,
        }
    }
}
