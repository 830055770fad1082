// The walk over an expression's words: each operand ends where the next begins.
ghost use Rattle.std.specs.Prelude.{◌≡◌, get_or};
ghost use Rattle.definitions.specs.Image.{kind_of, payload_of};
ghost use Rattle.definitions.specs.Reading.{read_expression};
ghost use Rattle.laws.specs.ImageIn.{image_in};
ghost use Rattle.image_words.specs.Read.{ExpressionRead};
ghost use Rattle.tracing.specs.Answers.{SameBytes, evaluation, logged};
ghost use Rattle.evaluator.specs.Evaluation.{evaluate_at};

use super::operations::{cell_at, choose, operate};
use super::{CELLS, VARIABLES, Value};
use image_words::kinds::{self, Kind};
use image_words::lists::{element, wide};
use image_words::payload;
use operators::apply_unary;
use tables::programs::Program;
use tracing::{Stop, Trace};

// What an expression is evaluated over: the variables of a procedure of a program, and the cells of a machine.
#[derive(Clone, Copy)]
pub struct Memory<'a> {
    pub program: Program<'a>,
    pub vars: &'a [u32; VARIABLES],
    pub cells: &'a [u32; CELLS],
}

// An operand: a variable or a small constant is read in place, which spares a call.
#[cycle(evaluation)]
#[tactic(auto, using(image_words::specs::Parts::kind_there, crate::proofs::Rules::variable_got, crate::proofs::Rules::constant_got))]
pub fn operand(
    memory: &Memory<'_>,
    trace: &mut Trace<'_>,
    at: usize,
    level: u32,
) -> Result<Value, Stop>
    requires { ExpressionRead level memory.now.program.image.now at }
    ensures answer { evaluation result (logged trace.new)
        ≡ evaluate_at (image_in memory.now.program.image.now).arrays memory.now.vars.now memory.now.cells.now
        (logged trace.old) (read_expression level memory.now.program.image.now at) }
    ensures same { SameBytes trace.old trace.new }
{
    let image = memory.program.image;
    let vars = memory.vars;
    let w = image[at];
    match kinds::of(w) {
        Kind::Variable => Ok(Value {
            word: element(vars, wide(payload(w))),
            next: at + 1,
        }),
        Kind::Constant => Ok(Value {
            word: payload(w),
            next: at + 1,
        }),
        _ => evaluate(memory, trace, at, level),
    }
}

// Both operands, left to right, then the operator.
#[cycle(evaluation)]
#[tactic(auto, using(crate::proofs::Rules::place_small, crate::proofs::Rules::left_there, crate::proofs::Rules::right_there, crate::proofs::Rules::left_stopped, crate::proofs::Rules::right_stopped, crate::proofs::Rules::operator_stopped, crate::proofs::Rules::binary_done))]
fn evaluate_binary(
    memory: &Memory<'_>,
    trace: &mut Trace<'_>,
    at: usize,
    level: u32,
    op: u32,
) -> Result<Value, Stop>
    requires { ExpressionRead level memory.now.program.image.now at × (kind_of (get_or memory.now.program.image.now at 0) ≡ 13)
        × (op ≡ payload_of (get_or memory.now.program.image.now at 0)) }
    ensures answer { evaluation result (logged trace.new)
        ≡ evaluate_at (image_in memory.now.program.image.now).arrays memory.now.vars.now memory.now.cells.now
        (logged trace.old) (read_expression level memory.now.program.image.now at) }
    ensures same { SameBytes trace.old trace.new }
{
    let left = operand(memory, trace, at + 1, level - 1)?;
    let right = operand(memory, trace, left.next, level - 1)?;
    let word = operate(trace, at, op, left.word, right.word)?;
    Ok(Value {
        word,
        next: right.next,
    })
}

// The condition and both values are evaluated, then one is chosen.
#[cycle(evaluation)]
#[tactic(auto, using(crate::proofs::Rules::condition_there, crate::proofs::Rules::first_there, crate::proofs::Rules::second_there, crate::proofs::Rules::condition_stopped, crate::proofs::Rules::first_stopped, crate::proofs::Rules::second_stopped, crate::proofs::Rules::select_done))]
fn evaluate_select(
    memory: &Memory<'_>,
    trace: &mut Trace<'_>,
    at: usize,
    level: u32,
) -> Result<Value, Stop>
    requires { ExpressionRead level memory.now.program.image.now at × (kind_of (get_or memory.now.program.image.now at 0) ≡ 14) }
    ensures answer { evaluation result (logged trace.new)
        ≡ evaluate_at (image_in memory.now.program.image.now).arrays memory.now.vars.now memory.now.cells.now
        (logged trace.old) (read_expression level memory.now.program.image.now at) }
    ensures same { SameBytes trace.old trace.new }
{
    let condition = operand(memory, trace, at + 1, level - 1)?;
    let first = operand(memory, trace, condition.next, level - 1)?;
    let second = operand(memory, trace, first.next, level - 1)?;
    Ok(Value {
        word: choose(condition.word, first.word, second.word),
        next: second.next,
    })
}

// The expression at a place: its value and the place after it, or the stop.
#[cycle(evaluation)]
#[tactic(auto, using(image_words::specs::Parts::kind_there, crate::proofs::Rules::place_small, crate::proofs::Rules::raw_there, crate::proofs::Rules::index_there, crate::proofs::Rules::operand_there, crate::proofs::Rules::variable_got, crate::proofs::Rules::constant_got, crate::proofs::Rules::boolean_got, crate::proofs::Rules::raw_got, crate::proofs::Rules::cell_stopped, crate::proofs::Rules::cell_beyond, crate::proofs::Rules::cell_there, crate::proofs::Rules::unary_stopped, crate::proofs::Rules::unary_got))]
pub fn evaluate(
    memory: &Memory<'_>,
    trace: &mut Trace<'_>,
    at: usize,
    level: u32,
) -> Result<Value, Stop>
    requires { ExpressionRead level memory.now.program.image.now at }
    ensures answer { evaluation result (logged trace.new)
        ≡ evaluate_at (image_in memory.now.program.image.now).arrays memory.now.vars.now memory.now.cells.now
        (logged trace.old) (read_expression level memory.now.program.image.now at) }
    ensures same { SameBytes trace.old trace.new }
{
    let image = memory.program.image;
    let vars = memory.vars;
    let cells = memory.cells;
    let w = image[at];
    let p = payload(w);
    match kinds::of(w) {
        Kind::Binary => evaluate_binary(memory, trace, at, level, p),
        Kind::Cell => {
            let index = operand(memory, trace, at + 1, level - 1)?;
            let word = cell_at(memory.program, cells, trace, p, at, index.word)?;
            Ok(Value {
                word,
                next: index.next,
            })
        }
        Kind::Unary => {
            let a = operand(memory, trace, at + 1, level - 1)?;
            Ok(Value {
                word: apply_unary(p, a.word),
                next: a.next,
            })
        }
        Kind::Variable => Ok(Value {
            word: element(vars, wide(p)),
            next: at + 1,
        }),
        Kind::Constant | Kind::Boolean => Ok(Value {
            word: p,
            next: at + 1,
        }),
        Kind::RawConstant => Ok(Value {
            word: image[at + 1],
            next: at + 2,
        }),
        Kind::Select => evaluate_select(memory, trace, at, level),
    }
}
