// What the words of one operand say.
ghost use Rattle.std.specs.Prelude.{◌≡◌, ◌<◌, eqb, length, is_some};
ghost use Rattle.definitions.specs.Image.{kind_of};
ghost use Rattle.image_words.specs.Kinds.{kind_number};
ghost use Rattle.std.specs.Option.{unwrap_or};
ghost use Rattle.labels.specs.Enclosing.{bounds_in};
ghost use Rattle.labels.specs.Operand.{constant_at, value_at, bounded_at};

use super::enclosing::Enclosing;
use super::sums::bounded_addition;
use image_words::kinds::Kind;
use image_words::lists::element;
use image_words::payload;

// Whether a word begins an expression of a kind.
pub fn begins(w: u32, kind: Kind) -> bool
    ensures { result ≡ eqb (kind_of w) (kind_number kind) }
{
    image_words::kind(w) == kind as u32
}

// The value of the constant at a place, if one stands there.
#[tactic(auto, using(crate::proofs::OperandRules::constants))]
pub fn constant_at(image: &[u32], at: usize) -> Option<u32>
    ensures constant { is_some result ≡ constant_at image.now at }
    ensures value { unwrap_or result 0 ≡ value_at image.now at }
{
    let w = element(image, at);
    if begins(w, Kind::Constant) {
        return Some(payload(w));
    }
    if begins(w, Kind::RawConstant) {
        return Some(element(image, at + 1));
    }
    None
}

// Whether the operand at a place is an index that stays below a length in every run.
#[tactic(auto, using(crate::proofs::OperandRules::bounded))]
pub fn bounded_at(image: &[u32], enclosing: &Enclosing, size: u32, at: usize) -> bool
    requires { at < length image.now }
    ensures { result ≡ bounded_at image.now (bounds_in enclosing.now.loops) size at }
{
    if let Some(value) = constant_at(image, at) {
        return value < size;
    }
    let w = image[at];
    if begins(w, Kind::Variable) {
        return enclosing.around(payload(w)).upper <= size;
    }
    begins(w, Kind::Binary) && bounded_addition(image, enclosing, size, at)
}
