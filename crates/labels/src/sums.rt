// Whether a sum as an index stays below a length in every pass of a for (document 02, wish 2).
ghost use Rattle.std.specs.Prelude.{◌≡◌, ◌≤◌, ◌<◌, length};
ghost use Rattle.definitions.specs.Labels.{sum_below};
ghost use Rattle.labels.specs.Enclosing.{bounds_in};
ghost use Rattle.labels.specs.Operand.{behind_at, sum_at, addition_at};

use super::enclosing::Enclosing;
use super::operands::{begins, constant_at};
use definitions::ConstantLoop;
use image_words::kinds::Kind;
use image_words::lists::{element, wide};
use image_words::payload;
use operators::Operator;

// The place behind an operand that is a variable or a constant.
#[tactic(auto, using(crate::proofs::SumRules::behind_raw, crate::proofs::SumRules::behind_one))]
fn behind(image: &[u32], at: usize) -> usize
    requires { at ≤ length image.now }
    ensures { result ≡ behind_at image.now at }
{
    if begins(element(image, at), Kind::RawConstant) {
        return at + 2;
    }
    at + 1
}

// The variable of a for and a constant, in whole numbers: the sum of two words has room in 64 bits.
#[tactic(auto, using(crate::proofs::SumRules::no_pass, crate::proofs::SumRules::whole_sum))]
fn sum_below(l: ConstantLoop, c: u32, size: u32) -> bool
    ensures { result ≡ sum_below l c size }
{
    if l.passes == 0 {
        return true;
    }
    let sum = wide(l.upper) + wide(c);
    sum <= wide(size)
}

// A variable at `i` and a constant at `c`.
#[tactic(auto, using(crate::proofs::SumRules::sums))]
fn bounded_sum(image: &[u32], enclosing: &Enclosing, size: u32, i: usize, c: usize) -> bool
    ensures { result ≡ sum_at image.now (bounds_in enclosing.now.loops) size i c }
{
    let w = element(image, i);
    match constant_at(image, c) {
        Some(v) => begins(w, Kind::Variable) && sum_below(enclosing.around(payload(w)), v, size),
        None => false,
    }
}

// The binary expression at a place: operator 0 over a variable and a constant, in either order.
#[tactic(auto, using(crate::proofs::SumRules::addition, crate::proofs::SumRules::no_addition))]
pub fn bounded_addition(image: &[u32], enclosing: &Enclosing, size: u32, at: usize) -> bool
    requires { at < length image.now }
    ensures { result ≡ addition_at image.now (bounds_in enclosing.now.loops) size at }
{
    if payload(image[at]) == Operator::Add as u32 {
        let left = at + 1;
        let right = behind(image, left);
        let first = bounded_sum(image, enclosing, size, left, right);
        let second = bounded_sum(image, enclosing, size, right, left);
        return first | second;
    }
    false
}
