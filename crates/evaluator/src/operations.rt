// What a cell or an operator does with the values of its parts, and what it records of them.
ghost use Rattle.std.specs.Prelude.{◌≡◌, ◌<◌, eqb};
ghost use Rattle.definitions.specs.Choice.{pick};
ghost use Rattle.definitions.specs.Running.{divided, shifted, operated};
ghost use Rattle.tracing.specs.Log.{byte_trace};
ghost use Rattle.tracing.specs.Answers.{SameBytes, evaluation, logged};
ghost use Rattle.evaluator.specs.Cells.{Bases, numbered, cell_read};

use super::CELLS;
use image_words::array_length;
use image_words::lists::{element, wide};
use operators::{OP_EQUAL, OP_QUOTIENT, OP_SHIFT_LEFT, apply};
use reasons::Reason;
use tables::Table;
use tables::programs::Program;
use tracing::{Entry, Stop, Trace};

// Records an index, and tests it: the value is the number of its cell among all cells.
#[tactic(auto, using(crate::proofs::Leaves::index_full, crate::proofs::Leaves::index_in, crate::proofs::Leaves::index_out, crate::proofs::Leaves::index_fits))]
pub fn index_at(
    table: &Table,
    trace: &mut Trace<'_>,
    array: u32,
    place: usize,
    index: u32,
) -> Result<u32, Stop>
    requires { Bases table.now × (place < 268435456) }
    ensures answer { evaluation result (logged trace.new)
        ≡ numbered table.now array place index (logged trace.old) }
    ensures same { SameBytes trace.old trace.new }
{
    let i = trace.record(Entry::Index, place, index)?;
    if i < array_length(tables::array(table, array)) {
        return Ok(tables::base(table, array) + i);
    }
    Err(Stop {
        reason: Reason::IndexBeyond,
        place,
    })
}

// What stands in the cell of an index.
#[tactic(auto, using(crate::proofs::Leaves::cell_stop, crate::proofs::Leaves::cell_got))]
pub fn cell_at(
    program: Program<'_>,
    cells: &[u32; CELLS],
    trace: &mut Trace<'_>,
    array: u32,
    place: usize,
    index: u32,
) -> Result<u32, Stop>
    requires { place < 268435456 }
    ensures answer { evaluation result (logged trace.new)
        ≡ cell_read program.entry.table.now cells.now array place index (logged trace.old) }
    ensures same { SameBytes trace.old trace.new }
{
    let i = index_at(program.table, trace, array, place, index)?;
    Ok(element(cells, wide(i)))
}

// Quotient or remainder: both operands are recorded before the divisor is tested.
#[tactic(auto, using(crate::proofs::Leaves::divide_full, crate::proofs::Leaves::divide_full2, crate::proofs::Leaves::divide_zero, crate::proofs::Leaves::divide_done))]
fn divide(trace: &mut Trace<'_>, place: usize, op: u32, a: u32, b: u32) -> Result<u32, Stop>
    requires { place < 268435456 }
    ensures answer { evaluation result (logged trace.new)
        ≡ divided byte_trace place op a b (logged trace.old) }
    ensures same { SameBytes trace.old trace.new }
{
    trace.record(Entry::Dividend, place, a)?;
    trace.record(Entry::Divisor, place, b)?;
    if b == 0 {
        return Err(Stop {
            reason: Reason::DivisorZero,
            place,
        });
    }
    Ok(apply(op, a, b))
}

// A shift or rotation: its count is recorded as it is, before the modulo.
#[tactic(auto, using(crate::proofs::Leaves::shift_full, crate::proofs::Leaves::shift_done))]
fn shift(trace: &mut Trace<'_>, place: usize, op: u32, a: u32, b: u32) -> Result<u32, Stop>
    requires { place < 268435456 }
    ensures answer { evaluation result (logged trace.new)
        ≡ shifted byte_trace place op a b (logged trace.old) }
    ensures same { SameBytes trace.old trace.new }
{
    trace.record(Entry::ShiftCount, place, b)?;
    Ok(apply(op, a, b))
}

// A binary operator on its operands' values, by where it stands in the table.
#[tactic(auto, using(crate::proofs::Leaves::operate_below, crate::proofs::Leaves::operate_shift, crate::proofs::Leaves::operate_divide, crate::proofs::Leaves::operate_above))]
pub fn operate(trace: &mut Trace<'_>, place: usize, op: u32, a: u32, b: u32) -> Result<u32, Stop>
    requires { place < 268435456 }
    ensures answer { evaluation result (logged trace.new)
        ≡ operated byte_trace place op a b (logged trace.old) }
    ensures same { SameBytes trace.old trace.new }
{
    match op {
        OP_SHIFT_LEFT..OP_QUOTIENT => shift(trace, place, op, a, b),
        OP_QUOTIENT..OP_EQUAL => divide(trace, place, op, a, b),
        _ => Ok(apply(op, a, b)),
    }
}

// The value that a condition selects.
pub fn choose(c: u32, a: u32, b: u32) -> u32
    ensures { result ≡ pick (eqb c 0) b a }
{
    if c == 0 { b } else { a }
}
