// Reading expressions, operator first: a call of itself for each operand, one level below.
ghost use Rattle.std.specs.Prelude.{◌≡◌};
ghost use Rattle.definitions.specs.Reading.{read_expression};
ghost use Rattle.image_words.specs.Read.{arguments_at};
ghost use Rattle.reader.specs.Answers.{answer};

use super::words::{ensure, word};
use definitions::Fault;
use image_words::kinds::{self, Kind};
use image_words::valid::{expression_word, raw_word};
use reasons::Reason;

// `level` is the number of levels that are left.
#[tactic(auto, using(crate::proofs::ExpressionRules::expression_rules))]
pub fn read_expression(image: &[u32], at: usize, level: u32) -> Result<usize, Fault>
    ensures { result ≡ answer (read_expression level image.now at) }
{
    let w = word(image, at)?;
    ensure(expression_word(w), Reason::Word, at)?;
    ensure(level != 0, Reason::TooDeep, at)?;
    let next = at + 1;
    let below = level - 1;
    match kinds::of(w) {
        Kind::Constant | Kind::Boolean | Kind::Variable => Ok(next),
        Kind::RawConstant => {
            ensure(raw_word(word(image, next)?), Reason::Word, next)?;
            Ok(next + 1)
        }
        Kind::Cell | Kind::Unary => read_expression(image, next, below),
        Kind::Binary => {
            let second = read_expression(image, next, below)?;
            read_expression(image, second, below)
        }
        Kind::Select => {
            let second = read_expression(image, next, below)?;
            let third = read_expression(image, second, below)?;
            read_expression(image, third, below)
        }
    }
}

// `count` expressions in a row.
#[tactic(auto, using(crate::proofs::ExpressionRules::arguments_rules))]
pub fn read_arguments(image: &[u32], count: u32, mut at: usize, level: u32) -> Result<usize, Fault>
    ensures { result ≡ answer (arguments_at count level image.now at) }
{
    for _ in 0..count {
        at = read_expression(image, at, level)?;
    }
    Ok(at)
}
