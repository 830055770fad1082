// Which words may stand where: "2 [word] wrong kind or payload" is for those that may not.
ghost use Rattle.std.specs.Prelude.{◌≡◌, ◌≤◌, ◌<◌};
ghost use Rattle.definitions.specs.Image.{header_word, array_word, procedure_word, type_word, block_word, statement_word, expression_word, raw_word};

use super::kinds::{self, Kind};
use super::limits::{
    LONGEST_ARRAY, MOST_ARRAYS, MOST_CELLS, MOST_PROCEDURES, most_locals, most_parameters,
};
use super::ops::{self, Op};
use super::{
    ARRAY, BLOCK, HEADER, HIGH_UNIT, KIND_UNIT, PROCEDURE, STATEMENT, TYPE, array_length, arrays,
    called, form, kind, locals, mode, parameters, payload, procedures, target,
};

const UNARY_OPERATORS: u32 = 3;

const BINARY_OPERATORS: u32 = 15;

#[tactic(auto, unfolding(definitions::specs::Image::header_word))]
pub fn header_word(w: u32) -> bool
    ensures { result ≡ header_word w }
{
    kind(w) == HEADER
        && form(w) < 2
        && arrays(w) <= MOST_ARRAYS
        && 1 <= procedures(w)
        && procedures(w) <= MOST_PROCEDURES
}

// An array word, where the arrays before it have the given number of cells.
#[tactic(auto, unfolding(definitions::specs::Image::array_word))]
pub fn array_word(cells: u32, w: u32) -> bool
    requires { cells ≤ 1024 }
    ensures { result ≡ array_word cells w }
{
    let length = array_length(w);
    kind(w) == ARRAY
        && payload(w) / HIGH_UNIT < 2
        && 1 <= length
        && length <= LONGEST_ARRAY
        && cells + length <= MOST_CELLS
}

#[tactic(auto, unfolding(definitions::specs::Image::procedure_word))]
pub fn procedure_word(form: u32, w: u32) -> bool
    requires { form < 2 }
    ensures { result ≡ procedure_word form w }
{
    kind(w) == PROCEDURE
        && mode(w) + form <= 1
        && parameters(w) <= most_parameters(form)
        && locals(w) <= most_locals(form)
}

#[tactic(auto, unfolding(definitions::specs::Image::type_word))]
pub fn type_word(w: u32) -> bool
    ensures { result ≡ type_word w }
{
    kind(w) == TYPE && payload(w) < 4
}

#[tactic(auto, unfolding(definitions::specs::Image::block_word))]
pub fn block_word(w: u32) -> bool
    ensures { result ≡ block_word w }
{
    kind(w) == BLOCK
}

// A statement's word in the body of the procedure numbered `me`.
#[tactic(auto, unfolding(definitions::specs::Image::statement_word))]
pub fn statement_word(me: u32, w: u32) -> bool
    ensures { result ≡ statement_word me w }
{
    kind(w) == STATEMENT
        && match ops::checked(w) {
            Some(Op::Assign | Op::Store | Op::For) => true,
            Some(Op::If | Op::Return) => target(w) == 0,
            Some(Op::Call) => called(w) < me,
            None => false,
        }
}

#[tactic(auto, unfolding(definitions::specs::Image::expression_word))]
pub fn expression_word(w: u32) -> bool
    ensures { result ≡ expression_word w }
{
    match kinds::checked(w) {
        Some(Kind::Constant | Kind::Variable | Kind::Cell) => true,
        Some(Kind::RawConstant | Kind::Select) => payload(w) == 0,
        Some(Kind::Boolean) => payload(w) < 2,
        Some(Kind::Unary) => payload(w) < UNARY_OPERATORS,
        Some(Kind::Binary) => payload(w) < BINARY_OPERATORS,
        None => false,
    }
}

#[tactic(auto, unfolding(definitions::specs::Image::raw_word))]
pub fn raw_word(w: u32) -> bool
    ensures { result ≡ raw_word w }
{
    KIND_UNIT <= w
}
