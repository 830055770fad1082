// The operators of expressions: the table of sorts, and the values that they compute.
#![tactic(auto)]

pub mod unary; // operators with one operand
mod values; // the values of operators, as definitions/specs/Arithmetic.antt has them

ghost use Rattle.std.specs.Prelude.{◌≡◌, ◌≤◌, ◌<◌, IfSome, IfNone};
ghost use Rattle.definitions.specs.Operators.{operator, apply_binary, apply_unary};
ghost use Rattle.operators.specs.Numbers.{sort_number, publics_number, operator_number};
ghost use Rattle.operators.specs.Rows.{view};

use unary::UnaryOperator;
pub use values::{multiply, truth};
use values::{equal, less, logical_and, logical_or, quotient, remainder, rotate_left};

// Operators 6 to 8 shift and record their count, 9 and 10 divide and record both operands: the first of each, and the first after them.
pub const OP_SHIFT_LEFT: u32 = 6;

pub const OP_QUOTIENT: u32 = 9;

pub const OP_EQUAL: u32 = 11;

// Sorts by number.
pub const WORD: u32 = 0;

pub const BOOLEAN: u32 = 1;

// A boolean is a word too, 0 for false and 1 for true.
#[derive(Clone, Copy, PartialEq, Eq)]
pub enum Sort {
    Word,
    Boolean,
}

// Which operands have to be public: none, the count of a shift, both sides of a division.
#[derive(Clone, Copy, PartialEq, Eq)]
pub enum PublicOperands {
    Neither,
    Right,
    Both,
}

// The operators with two operands, each with its number in an image.
#[derive(Clone, Copy, PartialEq, Eq)]
pub enum Operator {
    Add = 0,
    Subtract = 1,
    Multiply = 2,
    And = 3,
    Or = 4,
    Xor = 5,
    ShiftLeft = 6,
    ShiftRight = 7,
    RotateLeft = 8,
    Quotient = 9,
    Remainder = 10,
    Equal = 11,
    Less = 12,
    LogicalAnd = 13,
    LogicalOr = 14,
}

// The sort of both operands, the sort of the result, the operands that have to be public.
#[derive(Clone, Copy)]
struct Row(Sort, Sort, PublicOperands);

// The paper's table, in the order of the numbers.
const OPERATORS: [Row; 15] = [
    Row(Sort::Word, Sort::Word, PublicOperands::Neither), // 0 add
    Row(Sort::Word, Sort::Word, PublicOperands::Neither), // 1 subtract
    Row(Sort::Word, Sort::Word, PublicOperands::Neither), // 2 multiply
    Row(Sort::Word, Sort::Word, PublicOperands::Neither), // 3 and
    Row(Sort::Word, Sort::Word, PublicOperands::Neither), // 4 or
    Row(Sort::Word, Sort::Word, PublicOperands::Neither), // 5 xor
    Row(Sort::Word, Sort::Word, PublicOperands::Right), // 6 shift left
    Row(Sort::Word, Sort::Word, PublicOperands::Right), // 7 shift right
    Row(Sort::Word, Sort::Word, PublicOperands::Right), // 8 rotate left
    Row(Sort::Word, Sort::Word, PublicOperands::Both), // 9 quotient
    Row(Sort::Word, Sort::Word, PublicOperands::Both), // 10 remainder
    Row(Sort::Word, Sort::Boolean, PublicOperands::Neither), // 11 equal
    Row(Sort::Word, Sort::Boolean, PublicOperands::Neither), // 12 less
    Row(Sort::Boolean, Sort::Boolean, PublicOperands::Neither), // 13 and
    Row(Sort::Boolean, Sort::Boolean, PublicOperands::Neither), // 14 or
];

impl Operator {
    pub fn of(number: u32) -> Operator
        requires { number < 15 }
        ensures { number ≡ operator_number result }
    {
        match number {
            0 => Operator::Add,
            1 => Operator::Subtract,
            2 => Operator::Multiply,
            3 => Operator::And,
            4 => Operator::Or,
            5 => Operator::Xor,
            6 => Operator::ShiftLeft,
            7 => Operator::ShiftRight,
            8 => Operator::RotateLeft,
            9 => Operator::Quotient,
            10 => Operator::Remainder,
            11 => Operator::Equal,
            12 => Operator::Less,
            13 => Operator::LogicalAnd,
            _ => Operator::LogicalOr,
        }
    }

    pub fn checked(number: u32) -> Option<Operator>
        ensures some { IfSome result (λ o. number ≡ operator_number o) }
        ensures none { IfNone result (15 ≤ number) }
    {
        match number {
            0..=14 => Some(Operator::of(number)),
            _ => None,
        }
    }

    // The operator's row of the table.
    #[tactic(auto, using(crate::proofs::Table::entry))]
    fn row(self) -> Row
        ensures { view result ≡ operator (operator_number self) }
    {
        OPERATORS[self as usize]
    }

    // The sort of both operands.
    pub fn operands(self) -> Sort
        ensures { sort_number result ≡ (operator (operator_number self)).operands }
    {
        self.row().0
    }

    // The sort of the result.
    pub fn result(self) -> Sort
        ensures { sort_number result ≡ (operator (operator_number self)).result }
    {
        self.row().1
    }

    // Which operands have to be public.
    pub fn publics(self) -> PublicOperands
        ensures { publics_number result ≡ (operator (operator_number self)).publics }
    {
        self.row().2
    }

    #[tactic(auto, using(crate::proofs::Operations::product_is), unfolding(definitions::specs::Operators::apply_binary))]
    pub fn apply(self, a: u32, b: u32) -> u32
        ensures { result ≡ apply_binary (operator_number self) a b }
    {
        match self {
            Operator::Add => a.wrapping_add(b),
            Operator::Subtract => a.wrapping_sub(b),
            Operator::Multiply => multiply(a, b),
            Operator::And => a & b,
            Operator::Or => a | b,
            Operator::Xor => a ^ b,
            Operator::ShiftLeft => a << (b % 32),
            Operator::ShiftRight => a >> (b % 32),
            Operator::RotateLeft => rotate_left(a, b),
            Operator::Quotient => quotient(a, b),
            Operator::Remainder => remainder(a, b),
            Operator::Equal => equal(a, b),
            Operator::Less => less(a, b),
            Operator::LogicalAnd => logical_and(a, b),
            Operator::LogicalOr => logical_or(a, b),
        }
    }
}

// The value of a binary operator by its number; past the last, 0.
#[tactic(auto, using(crate::proofs::Operations::binary_past))]
pub fn apply(op: u32, a: u32, b: u32) -> u32
    ensures { result ≡ apply_binary op a b }
{
    match Operator::checked(op) {
        Some(operator) => operator.apply(a, b),
        None => 0,
    }
}

// The value of a unary operator by its number; past the last, 0.
#[tactic(auto, using(crate::proofs::Operations::unary_past))]
pub fn apply_unary(op: u32, a: u32) -> u32
    ensures { result ≡ apply_unary op a }
{
    match UnaryOperator::checked(op) {
        Some(operator) => operator.apply(a),
        None => 0,
    }
}
