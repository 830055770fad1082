// A whole procedure, as a host's call runs it: the contract speaks of the definition's trace words, not of bytes.
ghost use Rattle.std.specs.Prelude.{◌≡◌, [], ◌/◌, length};
ghost use Rattle.definitions.specs.Running.{trace_words, run_procedure};
ghost use Rattle.laws.specs.ImageIn.{image_in};
ghost use Rattle.runner.specs.Runs.{Ready, nine};
ghost use Rattle.runner.specs.Executions.{told, executed};

use super::blocks::run_body;
use evaluator::CELLS;
use simple_statements::{PARAMETERS, Scope, State};
use tracing::{Stop, Trace};

// What a call's run comes to: the result or the stop, the steps, the number of trace words recorded.
#[derive(Clone, Copy)]
pub struct Execution {
    pub outcome: Result<u32, Stop>,
    pub steps: u32,
    pub words: usize,
}

// The procedure on its values. On a stop the cells are as the run left them: a host's call puts them back.
pub fn run_procedure(
    scope: &Scope<'_>,
    values: &[u32; PARAMETERS],
    cells: &mut [u32; CELLS],
    trace: &mut [u8],
) -> Execution
    requires { Ready scope.now.program.image.now scope.now.program.table.now scope.now.ends.now scope.now.me }
    ensures { told result cells.new trace.new ≡ executed trace.old (run_procedure (trace_words (length trace.old / 4))
        scope.now.budget (image_in scope.now.program.image.now).arrays (image_in scope.now.program.image.now).procedures
        (length (image_in scope.now.program.image.now).procedures) scope.now.me (nine values.now) 0 [] cells.old) }
{
    let mut written = Trace {
        bytes: trace,
        used: 0,
    };
    let mut state = State {
        cells,
        trace: &mut written,
        steps: 0,
    };
    let outcome = run_body(scope, values, &mut state);
    let State { steps, .. } = state;
    let Trace { used, .. } = written;
    Execution {
        outcome,
        steps,
        words: used / 4,
    }
}
