// The ops of statements.
ghost use Rattle.std.specs.Prelude.{◌≡◌, ◌<◌, ◌≤◌, IfSome, IfNone};
ghost use Rattle.definitions.specs.Image.{op_of};
ghost use Rattle.image_words.specs.Kinds.{op_number};

use super::op;

#[derive(Clone, Copy, PartialEq, Eq)]
pub enum Op {
    Assign = 0,
    Store = 1,
    If = 2,
    For = 3,
    Return = 4,
    Call = 5,
}

// The op of a statement by its first word.
pub fn of(w: u32) -> Op
    requires { op_of w < 6 }
    ensures { op_of w ≡ op_number result }
{
    match op(w) {
        0 => Op::Assign,
        1 => Op::Store,
        2 => Op::If,
        3 => Op::For,
        4 => Op::Return,
        _ => Op::Call,
    }
}

// The op of a statement, if the word has one of the six.
pub fn checked(w: u32) -> Option<Op>
    ensures some { IfSome result (λ o. op_of w ≡ op_number o) }
    ensures none { IfNone result (6 ≤ op_of w) }
{
    match op(w) {
        0..=5 => Some(of(w)),
        _ => None,
    }
}
