// A call over an array of cells, in which the run works: whoever calls keeps the machine that it was copied from.
ghost use Rattle.std.specs.Prelude.{◌≡◌, ◌/◌, length, get_or};
ghost use Rattle.definitions.specs.Bytes.{words_of};
ghost use Rattle.definitions.specs.Requests.{argument_values, called_on};
ghost use Rattle.laws.specs.ImageIn.{image_in};
ghost use Rattle.tables.specs.Table.{params_in};
ghost use Rattle.tables.specs.Looking.{procedure_in};
ghost use Rattle.runner.specs.Runs.{Ready};
ghost use Rattle.reader.specs.Ends.{BlockEnds};
ghost use Rattle.machine.specs.Serving.{own_in, ran_on, Outcome};

use super::machines::Call;
use definitions::Answer;
use evaluator::CELLS;
use image_words::lists::wide;
use reasons::Reason;
use requests::arguments::{MOST, answer_of, fill_values};
use runner::procedures::run_procedure;
use simple_statements::Scope;
use tables::programs::Program;

// A call whose procedure and number of arguments were tested.
fn run<'a>(
    cells: &mut [u32; CELLS],
    program: Program<'a>,
    ends: &'a [u16],
    call: Call<'_>,
    trace: &mut [u8],
) -> Answer
    requires { Ready program.image.now program.table.now ends.now call.procedure
        × (length call.arguments.now / 4 ≡ get_or (params_in program.table.now) call.procedure 0) }
    ensures { Outcome program.entry.image.now cells.old cells.new result trace.old trace.new
        (ran_on (image_in program.entry.image.now) (own_in program.entry.image.now cells.old) call.entry.procedure
        (argument_values (procedure_in program.entry.image.now call.entry.procedure).types (words_of call.entry.arguments.now)) call.entry.budget
        (length trace.old / 4)) }
{
    let f = call.procedure;
    let mut values = [0u32; MOST];
    fill_values(call.arguments, program.procedure(f).types, &mut values);
    let scope = Scope {
        program,
        ends,
        me: f,
        budget: call.budget,
    };
    let run = run_procedure(&scope, &values, cells, trace);
    match run.outcome {
        Ok(v) => Answer::Done(answer_of(program.result_type(f), v), run.steps, run.words),
        Err(stop) => Answer::Stopped(stop.reason.number(), stop.place, run.steps, run.words),
    }
}

// The call: refused where there is no such procedure, then where the number of arguments is not its number of parameters.
pub fn call_on(
    cells: &mut [u32; CELLS],
    program: Program<'_>,
    ends: &[u16],
    call: Call<'_>,
    trace: &mut [u8],
) -> Answer
    requires { BlockEnds program.image.now (params_in program.table.now) ends.now }
    ensures { Outcome program.entry.image.now cells.old cells.new result trace.old trace.new
        (called_on (image_in program.entry.image.now) (own_in program.entry.image.now cells.old) call.entry.procedure (words_of call.entry.arguments.now)
        call.entry.budget (length (words_of trace.old))) }
{
    if program.procedures() <= call.procedure {
        return Answer::Refused(Reason::Missing.number(), 0);
    }
    if call.arguments.len() / 4 != wide(program.parameters(call.procedure)) {
        return Answer::Refused(Reason::ArgumentCount.number(), 0);
    }
    run(cells, program, ends, call, trace)
}
