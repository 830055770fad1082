// One walk over a body: its cost, its first for whose bounds are not constants, and the lowest procedure with such a for that its calls lead to.
ghost use Rattle.std.specs.Prelude.{◌≡◌, ◌≤◌, get_or};
ghost use Rattle.definitions.specs.Image.{op_of};
ghost use Rattle.definitions.specs.Reading.{read_statement, read_block};
ghost use Rattle.image_words.specs.Read.{StatementRead, BlockRead};
ghost use Rattle.tables.specs.Table.{params_in};
ghost use Rattle.step_bounds.specs.Counting.{lower, stepped, entered, first_after, counted, counted_block};

use super::costs::{CEILING, repeated, sum};
use image_words::lists::wide;
use image_words::ops::Op;
use image_words::skipping::skip;
use image_words::{called, ops, payload};
use labels::operands::constant_at;
use tables::Table;

// The most procedures of an image.
pub const PROCEDURES: usize = 32;

// What is known of a procedure: the cost of a call; the place of its first for whose bounds are not constants; the lowest procedure with such
// a for that is reached from it.
#[derive(Clone, Copy)]
pub struct Summary {
    pub cost: u64,
    pub first: Option<usize>,
    pub lowest: Option<u32>,
}

// How far the walk has come, and what it has found: the cost; the place of the first for whose bounds are not constants; the lowest procedure
// with such a for that calls lead to.
#[derive(Clone, Copy)]
pub struct Counted {
    pub at: usize,
    pub cost: u64,
    pub first: Option<usize>,
    pub lowest: Option<u32>,
}

// The lower of two procedures, where there is one.
#[tactic(auto, unfolding(crate::specs::Counting::lower))]
pub fn lower(a: Option<u32>, b: Option<u32>) -> Option<u32>
    ensures { result ≡ lower a b }
{
    match (a, b) {
        (Some(f), Some(g)) => Some(f.min(g)),
        (found, None) => found,
        (None, found) => found,
    }
}

// A statement that is one step, up to the next.
fn step(before: Counted, next: usize) -> Counted
    ensures { result ≡ stepped before next }
{
    Counted {
        at: next,
        cost: sum(before.cost, 1),
        ..before
    }
}

// Into a block of an if or of a for, whose cost is counted apart from what was before; a for may have bounds that are not constants.
#[tactic(auto, unfolding(crate::specs::Counting::first_after))]
fn enter(before: Counted, variable: bool, block: usize) -> Counted
    ensures { result ≡ entered before variable block }
{
    Counted {
        at: block,
        cost: 0,
        first: before.first.or(variable.then_some(before.at)),
        ..before
    }
}

// The walk over the body of a procedure: the words that it is read by, its number, and what is known of the procedures before it. Not a
// Procedure, which asks that its image was read: count_block may not ask more than that its block was.
#[derive(Clone, Copy)]
pub struct Walk<'a> {
    pub image: &'a [u32],
    pub table: &'a Table,
    pub me: u32,
    pub callees: &'a [Summary; PROCEDURES],
}

impl Walk<'_> {
    // A statement.
    #[cycle(blocks)]
    #[tactic(auto, using(image_words::specs::StatementParts::op_there))]
    fn count_statement(self, before: Counted, level: u32) -> Counted
        requires { StatementRead level (params_in self.table.now) self.me self.image.now before.at × (self.me ≤ 32) × (before.cost ≤ CEILING) }
        ensures { result ≡ counted self.entry.callees.now before
            (read_statement level (params_in self.entry.table.now) self.entry.me self.entry.image.now before.at) }
    {
        let image = self.image;
        let at = before.at;
        match ops::of(image[at]) {
            Op::Assign | Op::Return => step(before, skip(image, at + 1, 1)),
            Op::Store => step(before, skip(image, at + 1, 2)),
            Op::If => self.count_if(before, level),
            Op::For => self.count_for(before, level),
            Op::Call => self.count_call(before, level),
        }
    }

    // A call: its step, and all that its callee costs.
    fn count_call(self, before: Counted, level: u32) -> Counted
        requires { StatementRead level (params_in self.table.now) self.me self.image.now before.at × (self.me ≤ 32) × (before.cost ≤ CEILING) × (op_of (get_or self.image.now before.at 0) ≡ 5) }
        ensures { result ≡ counted self.entry.callees.now before
            (read_statement level (params_in self.entry.table.now) self.entry.me self.entry.image.now before.at) }
    {
        let f = called(self.image[before.at]);
        let callee = self.callees[wide(f)];
        Counted {
            at: skip(
                self.image,
                before.at + 1,
                wide(tables::parameters(self.table, f)),
            ),
            cost: sum(before.cost, sum(1, callee.cost)),
            lowest: lower(before.lowest, callee.lowest),
            ..before
        }
    }

    // An if: its step, and the larger of its arms.
    #[cycle(blocks)]
    fn count_if(self, before: Counted, level: u32) -> Counted
        requires { StatementRead level (params_in self.table.now) self.me self.image.now before.at × (self.me ≤ 32) × (before.cost ≤ CEILING) × (op_of (get_or self.image.now before.at 0) ≡ 2) }
        ensures { result ≡ counted self.entry.callees.now before
            (read_statement level (params_in self.entry.table.now) self.entry.me self.entry.image.now before.at) }
    {
        let first = skip(self.image, before.at + 1, 1);
        let x = self.count_block(enter(before, false, first), level - 1);
        let y = self.count_block(enter(x, false, x.at), level - 1);
        Counted {
            cost: sum(before.cost, sum(1, x.cost.max(y.cost))),
            ..y
        }
    }

    // A for: its step, and for each pass a step and what its block costs.
    #[cycle(blocks)]
    fn count_for(self, before: Counted, level: u32) -> Counted
        requires { StatementRead level (params_in self.table.now) self.me self.image.now before.at × (self.me ≤ 32) × (before.cost ≤ CEILING) × (op_of (get_or self.image.now before.at 0) ≡ 3) }
        ensures { result ≡ counted self.entry.callees.now before
            (read_statement level (params_in self.entry.table.now) self.entry.me self.entry.image.now before.at) }
    {
        let image = self.image;
        let from = before.at + 1;
        let to = skip(image, from, 1);
        let block = skip(image, to, 1);
        let low = constant_at(image, from);
        let high = constant_at(image, to);
        let constant = low.is_some() & high.is_some();
        let count = high.unwrap_or(0).saturating_sub(low.unwrap_or(0));
        let x = self.count_block(enter(before, !constant, block), level - 1);
        Counted {
            cost: sum(before.cost, sum(1, repeated(count, x.cost))),
            ..x
        }
    }

    // The statements of a block.
    #[cycle(blocks)]
    pub fn count_block(self, before: Counted, level: u32) -> Counted
        requires { BlockRead level (params_in self.table.now) self.me self.image.now before.at × (self.me ≤ 32) × (before.cost ≤ CEILING) }
        ensures { result ≡ counted_block self.entry.callees.now before
            (read_block level (params_in self.entry.table.now) self.entry.me self.entry.image.now before.at) }
    {
        let at = before.at;
        let count = payload(self.image[at]);
        let mut c = Counted {
            at: at + 1,
            ..before
        };
        for _ in 0..count {
            c = self.count_statement(c, level - 1);
        }
        c
    }
}
