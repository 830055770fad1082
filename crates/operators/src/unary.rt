// The operators with one operand.
ghost use Rattle.std.specs.Prelude.{◌≡◌, ◌≤◌, ◌<◌, IfSome, IfNone};
ghost use Rattle.definitions.specs.Operators.{apply_unary, unary_operand, unary_result};
ghost use Rattle.operators.specs.Numbers.{sort_number, unary_number};

use super::Sort;
use super::values::{equal, truth};

// Each with its number in an image.
#[derive(Clone, Copy, PartialEq, Eq)]
pub enum UnaryOperator {
    Not = 0,
    Complement = 1,
    // of a boolean
    ToWord = 2,
}

impl UnaryOperator {
    pub fn of(number: u32) -> UnaryOperator
        requires { number < 3 }
        ensures { number ≡ unary_number result }
    {
        match number {
            0 => UnaryOperator::Not,
            1 => UnaryOperator::Complement,
            _ => UnaryOperator::ToWord,
        }
    }

    pub fn checked(number: u32) -> Option<UnaryOperator>
        ensures some { IfSome result (λ o. number ≡ unary_number o) }
        ensures none { IfNone result (3 ≤ number) }
    {
        match number {
            0..=2 => Some(UnaryOperator::of(number)),
            _ => None,
        }
    }

    // The sort of its operand.
    pub fn operand(self) -> Sort
        ensures { sort_number result ≡ unary_operand (unary_number self) }
    {
        match self {
            UnaryOperator::Complement => Sort::Word,
            UnaryOperator::Not | UnaryOperator::ToWord => Sort::Boolean,
        }
    }

    // The sort of its result.
    pub fn result(self) -> Sort
        ensures { sort_number result ≡ unary_result (unary_number self) }
    {
        match self {
            UnaryOperator::Not => Sort::Boolean,
            UnaryOperator::Complement | UnaryOperator::ToWord => Sort::Word,
        }
    }

    #[tactic(auto, using(crate::proofs::Operations::truth_is), unfolding(definitions::specs::Operators::apply_unary))]
    pub fn apply(self, a: u32) -> u32
        ensures { result ≡ apply_unary (unary_number self) a }
    {
        match self {
            UnaryOperator::Not => equal(a, 0),
            UnaryOperator::Complement => !a,
            UnaryOperator::ToWord => truth(a),
        }
    }
}
