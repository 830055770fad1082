// The place after expressions, by one loop that counts how many are still to be passed over.
ghost use Rattle.std.specs.Prelude.{◌≡◌, ◌≤◌};
ghost use Rattle.image_words.specs.Kinds.{kind_number};
ghost use Rattle.image_words.specs.Skipping.{operand_count, Row, Skippable};

use super::kinds::{self, Kind};

// The number of operands of an expression.
fn operand_count(kind: Kind) -> usize
    ensures { (result ≡ operand_count (kind_number kind)) × (result ≤ 3) }
{
    match kind {
        Kind::Constant | Kind::RawConstant | Kind::Boolean | Kind::Variable => 0,
        Kind::Cell | Kind::Unary => 1,
        Kind::Binary => 2,
        Kind::Select => 3,
    }
}

// The place after `count` expressions in a row, which were read. `left` is no index: each word takes one expression away and brings its
// operands. A raw constant, which alone has two words, is a branch of its own: the next word is then looked at without waiting for the kind
// of this one.
#[tactic(auto, using(crate::proofs::SkipRules::passing_first, crate::proofs::SkipRules::passing_within, crate::proofs::SkipRules::passing_kind, crate::proofs::SkipRules::passing_raw, crate::proofs::SkipRules::passing_other, crate::proofs::SkipRules::passing_room, crate::proofs::SkipRules::passing_last))]
pub fn skip(image: &[u32], at: usize, count: usize) -> usize
    requires { Skippable image.now count at }
    ensures { Row image.now count at result }
{
    let mut a = at;
    let mut left = count;
    while 0 < left {
        match kinds::of(image[a]) {
            Kind::RawConstant => {
                left -= 1;
                a += 2;
            }
            kind => {
                left = left - 1 + operand_count(kind);
                a += 1;
            }
        }
    }
    a
}
