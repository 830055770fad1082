// What statements are made of: a condition, an index, the bounds of a for, the values of a call.
ghost use Rattle.std.specs.Prelude.{◌≡◌, true, ◌+◌, ◌<◌, ◌≤◌};
ghost use Rattle.definitions.specs.Reading.{read_expression};
ghost use Rattle.laws.specs.Parses.{ok, end_of};
ghost use Rattle.laws.specs.ImageIn.{image_in};
ghost use Rattle.image_words.specs.Read.{ExpressionRead, PairRead, arguments_at};
ghost use Rattle.tracing.specs.Answers.{SameBytes, evaluation, logged};
ghost use Rattle.simple_statements.specs.Runs.{branch_at, slot_at, range_noted, bounds_at, framing, values_at};

use super::{Bounds, PARAMETERS};
use evaluator::{Memory, Value, index_at, operand};
use image_words::lists::{put, wide};
use operators::truth;
use tracing::{Entry, Stop, Trace};

// The condition of the if at `place`, with its entry: 0 or 1.
#[tactic(auto, using(crate::proofs::PartRules::place_near, crate::proofs::PartRules::branch_stopped, crate::proofs::PartRules::branch_full, crate::proofs::PartRules::branch_noted))]
pub fn branch(
    memory: &Memory<'_>,
    trace: &mut Trace<'_>,
    place: usize,
    level: u32,
) -> Result<Value, Stop>
    requires { ExpressionRead level memory.now.program.image.now (place + 1) }
    ensures answer { evaluation result (logged trace.new) ≡ branch_at (image_in memory.now.program.image.now).arrays place memory.now.vars.now
        memory.now.cells.now (logged trace.old) (read_expression level memory.now.program.image.now (place + 1)) }
    ensures same { SameBytes trace.old trace.new }
{
    let condition = operand(memory, trace, place + 1, level)?;
    let word = trace.record(Entry::Branch, place, truth(condition.word))?;
    Ok(Value {
        word,
        next: condition.next,
    })
}

// The index of the store at `place`, with its entry and its test: the number of its cell.
#[tactic(auto, using(crate::proofs::PartRules::place_near, crate::proofs::PartRules::slot_stopped, crate::proofs::PartRules::slot_beyond, crate::proofs::PartRules::slot_noted))]
pub fn slot(
    memory: &Memory<'_>,
    trace: &mut Trace<'_>,
    place: usize,
    array: u32,
    level: u32,
) -> Result<Value, Stop>
    requires { ExpressionRead level memory.now.program.image.now (place + 1) }
    ensures answer { evaluation result (logged trace.new) ≡ slot_at (image_in memory.now.program.image.now).arrays memory.now.program.table.now
        array place memory.now.vars.now memory.now.cells.now (logged trace.old) (read_expression level memory.now.program.image.now (place + 1)) }
    ensures same { SameBytes trace.old trace.new }
{
    let index = operand(memory, trace, place + 1, level)?;
    let word = index_at(memory.program.table, trace, array, place, index.word)?;
    Ok(Value {
        word,
        next: index.next,
    })
}

// The entries of a for's bounds.
#[tactic(auto, using(crate::proofs::PartRules::range_full, crate::proofs::PartRules::range_full2, crate::proofs::PartRules::range_kept))]
fn note_range(trace: &mut Trace<'_>, place: usize, bounds: Bounds) -> Result<Bounds, Stop>
    requires { place < 268435456 }
    ensures answer { evaluation result (logged trace.new) ≡ range_noted place bounds.from bounds.to bounds.next (logged trace.old) }
    ensures same { SameBytes trace.old trace.new }
{
    trace.record(Entry::LoopFrom, place, bounds.from)?;
    trace.record(Entry::LoopTo, place, bounds.to)?;
    Ok(bounds)
}

// The bounds of the for at `place`, with their entries after both.
#[tactic(auto, using(crate::proofs::PartRules::place_near, crate::proofs::PartRules::second_read, crate::proofs::PartRules::from_stopped, crate::proofs::PartRules::to_stopped, crate::proofs::PartRules::bounds_noted))]
pub fn range(
    memory: &Memory<'_>,
    trace: &mut Trace<'_>,
    place: usize,
    level: u32,
) -> Result<Bounds, Stop>
    requires { PairRead level memory.now.program.image.now (place + 1) }
    ensures answer { evaluation result (logged trace.new) ≡ bounds_at (image_in memory.now.program.image.now).arrays place memory.now.vars.now
        memory.now.cells.now (logged trace.old) (read_expression level memory.now.program.image.now (place + 1))
        (read_expression level memory.now.program.image.now (end_of (read_expression level memory.now.program.image.now (place + 1)))) }
    ensures same { SameBytes trace.old trace.new }
{
    let from = operand(memory, trace, place + 1, level)?;
    let to = operand(memory, trace, from.next, level)?;
    let bounds = Bounds {
        from: from.word,
        to: to.word,
        next: to.next,
    };
    note_range(trace, place, bounds)
}

// The values of a call, and the place after them.
#[tactic(auto, using(crate::proofs::ArgumentRules::arguments_stop))]
pub fn arguments(
    memory: &Memory<'_>,
    trace: &mut Trace<'_>,
    values: &mut [u32; PARAMETERS],
    count: u32,
    at: usize,
    level: u32,
) -> Result<usize, Stop>
    requires { ok (arguments_at count level memory.now.program.image.now at) ≡ true }
    ensures answer { framing result values.new (logged trace.new) ≡ values_at (image_in memory.now.program.image.now).arrays memory.now.vars.now
        memory.now.cells.now (logged trace.old) values.old 0 (arguments_at count level memory.now.program.image.now at) }
    ensures same { SameBytes trace.old trace.new }
{
    let mut next = at;
    for k in 0..count {
        let value = operand(memory, trace, next, level)?;
        put(values, wide(k), value.word);
        next = value.next;
    }
    Ok(next)
}
