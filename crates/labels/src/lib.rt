// The checker's third group: flow (9), secret where public (10), unbounded (11), calls (12), secret branches in form 1 (13).
// Every function walks the words with a cursor, which carries the lowest fault so far.
#![tactic(auto)]

ghost use Rattle.std.specs.Prelude.{◌≡◌, ◌≤◌};
ghost use Rattle.definitions.specs.Faults.{least, fault_if};
ghost use Rattle.reasons.specs.Numbers.{reason_number};
ghost use Rattle.tables.specs.Looking.{Listed};
ghost use Rattle.labels.specs.Cursors.{ending};

use contexts::Body;
use definitions::{ConstantLoop, Fault};
use enclosing::Enclosing;
use reasons::Reason;

pub mod enclosing; // the enclosing fors with constant bounds
pub mod operands; // what an operand's words say
mod sums; // a sum as an index
mod expressions; // expressions
mod leaves; // statements that hold no block
pub mod loops; // the bounds of a for
mod statement_words; // statements that hold blocks, and blocks
pub mod procedures; // a whole image

// Where a walk stands, and the lowest fault so far.
#[derive(Clone, Copy)]
pub struct Cursor {
    pub at: usize,
    pub best: Fault,
}

impl Cursor {
    // Notes the fault of a rule at a place, where the rule is broken.
    fn noted(self, broken: bool, reason: Reason, place: usize) -> Cursor
        requires { 1 ≤ reason_number reason }
        ensures { result ≡ ending self.at (least self.best (fault_if broken (reason_number reason) place)) }
    {
        Cursor {
            at: self.at,
            best: faults::note(self.best, broken, reason.number(), place),
        }
    }
}

// What a statement is judged by: the body that it stands in, its image's form, its result's type word.
#[derive(Clone, Copy)]
pub struct Scope<'a> {
    pub body: Body<'a>,
    pub form: u32,
    pub result: u32,
}

// What a block is judged by, and a call: the body is that of a procedure of an image that was read.
#[derive(Clone, Copy)]
pub struct Walk<'a> {
    pub scope: Scope<'a>,
    ghost listed: { Listed scope.body.image.now scope.body.table.now scope.body.me },
}

// What an expression is judged by: the body that it stands in, the enclosing fors, whether its context is secret.
#[derive(Clone, Copy)]
pub struct Around<'a> {
    pub body: Body<'a>,
    pub enclosing: &'a Enclosing,
    pub secret: bool,
}

// What the walk of an expression gives: whether it is secret, and the cursor behind it.
#[derive(Clone, Copy)]
pub struct Labelled {
    pub secret: bool,
    pub cursor: Cursor,
}

// What the walk of a for's bounds gives: the for that is around its variable in its block, if both are constants, and the cursor behind them.
#[derive(Clone, Copy)]
pub struct Limited {
    pub inside: Option<ConstantLoop>,
    pub cursor: Cursor,
}

// What the walk of a statement or a block gives: the rc after it, and the cursor behind it.
#[derive(Clone, Copy)]
pub struct Walked {
    pub rc: bool,
    pub cursor: Cursor,
}
