// Blocks, and the statements that run blocks: a cycle of calls under a falling level; a call goes to a lower procedure.
ghost use Rattle.std.specs.Prelude.{◌≡◌, ◌+◌, ◌-◌, ◌<◌, ◌≤◌, get_or, MatchResult};
ghost use Rattle.definitions.specs.Image.{op_of};
ghost use Rattle.image_words.specs.Read.{StatementRead, BlockRead};
ghost use Rattle.tables.specs.Table.{params_in};
ghost use Rattle.simple_statements.specs.Runs.{SameLent, finished, statement_run};
ghost use Rattle.runner.specs.Runs.{Ready, framed, returned, block_run, passes_run, body_run};

use evaluator::{Memory, VARIABLES};
use image_words::limits::largest_level;
use image_words::lists::{put, wide};
use image_words::ops::{self, Op};
use image_words::{called, payload, result, target};
use reader::statement_words::ProcedureReader;
use reasons::Reason;
use simple_statements::parts::{arguments, branch, range};
use simple_statements::statement_words::{run_assign, run_return, run_store};
use simple_statements::{Bounds, PARAMETERS, Ran, Scope, State};
use tracing::{Entry, Stop};

// A for that is run: its place, its variable, its bounds with the place of its block, and the place after it.
#[derive(Clone, Copy)]
struct Passes {
    place: usize,
    x: u32,
    bounds: Bounds,
    next: usize,
}

// The steps with one more, for the statement or the for at `place`; a stop where the budget is spent.
fn next_step(steps: u32, budget: u32, place: usize) -> Result<u32, Stop>
    ensures { MatchResult result (λ n. (steps < budget) × (n ≡ steps + 1))
        (λ s. (budget ≤ steps) × (s.reason ≡ Reason.BudgetSpent) × (s.place ≡ place)) }
{
    if budget <= steps {
        return Err(Stop {
            reason: Reason::BudgetSpent,
            place,
        });
    }
    Ok(steps + 1)
}

// (`Ready` stands in the contracts below and in no ghost field of Scope: a ghost field takes a fact that has one proof at most, and `BlockEnds` may have more.)

// The arm that is taken; the other is passed over by the table of ends.
#[cycle(running)]
#[tactic(auto, using(crate::proofs::BranchRules::condition_read, crate::proofs::BranchRules::then_read, crate::proofs::BranchRules::else_read, crate::proofs::BranchRules::else_passed, crate::proofs::BranchRules::if_stopped, crate::proofs::BranchRules::else_done, crate::proofs::BranchRules::then_stopped, crate::proofs::BranchRules::then_returned, crate::proofs::BranchRules::then_done))]
fn run_if(
    scope: &Scope<'_>,
    vars: &mut [u32; VARIABLES],
    state: &mut State<'_, '_, '_>,
    at: usize,
    level: u32,
) -> Result<Ran, Stop>
    requires { StatementRead level (params_in scope.now.program.table.now) scope.now.me scope.now.program.image.now at
        × Ready scope.now.program.image.now scope.now.program.table.now scope.now.ends.now scope.now.me
        × (op_of (get_or scope.now.program.image.now at 0) ≡ 2) }
    ensures answer { finished result vars.new state.new ≡ statement_run scope.now level at vars.old state.old }
    ensures same { SameLent state.old state.new }
{
    let ends = scope.ends;
    let reader = ProcedureReader {
        image: scope.program.image,
        table: scope.program.table,
        me: scope.me,
    };
    let memory = Memory {
        program: scope.program,
        vars,
        cells: state.cells,
    };
    let condition = branch(&memory, state.trace, at, level - 1)?;
    if condition.word == 0 {
        let other = reader.block_end(ends, condition.next, level - 1);
        return run_block(scope, vars, state, other, level - 1);
    }
    match run_block(scope, vars, state, condition.next, level - 1)? {
        Ran::Back(value) => Ok(Ran::Back(value)),
        Ran::On(other) => {
            let next = reader.block_end(ends, other, level - 1);
            Ok(Ran::On(next))
        }
    }
}

// The passes of a for: each costs a step, and its variable is set before its block.
#[cycle(running)]
#[tactic(auto, using(crate::proofs::BlockRules::passes_spent, crate::proofs::BlockRules::passes_stopped, crate::proofs::BlockRules::passes_returned, crate::proofs::BlockRules::passes_more, crate::proofs::BlockRules::passes_done))]
fn run_passes(
    scope: &Scope<'_>,
    vars: &mut [u32; VARIABLES],
    state: &mut State<'_, '_, '_>,
    passes: Passes,
    level: u32,
) -> Result<Ran, Stop>
    requires { BlockRead level (params_in scope.now.program.table.now) scope.now.me scope.now.program.image.now passes.bounds.next
        × Ready scope.now.program.image.now scope.now.program.table.now scope.now.ends.now scope.now.me }
    ensures answer { finished result vars.new state.new ≡ passes_run scope.now level passes vars.old state.old }
    ensures same { SameLent state.old state.new }
{
    for i in passes.bounds.from..passes.bounds.to {
        state.steps = next_step(state.steps, scope.budget, passes.place)?;
        put(vars, wide(passes.x), i);
        if let Ran::Back(value) = run_block(scope, vars, state, passes.bounds.next, level)? {
            return Ok(Ran::Back(value));
        }
    }
    Ok(Ran::On(passes.next))
}

// The bounds, then the passes.
#[cycle(running)]
#[tactic(auto, using(crate::proofs::BranchRules::bounds_read, crate::proofs::BranchRules::body_read, crate::proofs::BranchRules::for_stopped, crate::proofs::BranchRules::for_done))]
fn run_for(
    scope: &Scope<'_>,
    vars: &mut [u32; VARIABLES],
    state: &mut State<'_, '_, '_>,
    at: usize,
    level: u32,
) -> Result<Ran, Stop>
    requires { StatementRead level (params_in scope.now.program.table.now) scope.now.me scope.now.program.image.now at
        × Ready scope.now.program.image.now scope.now.program.table.now scope.now.ends.now scope.now.me
        × (op_of (get_or scope.now.program.image.now at 0) ≡ 3) }
    ensures answer { finished result vars.new state.new ≡ statement_run scope.now level at vars.old state.old }
    ensures same { SameLent state.old state.new }
{
    let ends = scope.ends;
    let reader = ProcedureReader {
        image: scope.program.image,
        table: scope.program.table,
        me: scope.me,
    };
    let memory = Memory {
        program: scope.program,
        vars,
        cells: state.cells,
    };
    let bounds = range(&memory, state.trace, at, level - 1)?;
    let passes = Passes {
        place: at,
        x: target(scope.program.image[at]),
        bounds,
        next: reader.block_end(ends, bounds.next, level - 1),
    };
    run_passes(scope, vars, state, passes, level - 1)
}

// The variables of a procedure that begins: its values, then zeros. (One by one: after `copy_from_slice` the array was made in one frame and copied
// into another, for each body that is open.)
fn frame_of(values: &[u32; PARAMETERS]) -> [u32; VARIABLES]
    ensures { result ≡ framed values.now }
{
    let mut frame = [0u32; VARIABLES];
    frame[0] = values[0];
    frame[1] = values[1];
    frame[2] = values[2];
    frame[3] = values[3];
    frame[4] = values[4];
    frame[5] = values[5];
    frame[6] = values[6];
    frame[7] = values[7];
    frame[8] = values[8];
    frame
}

// The body of the procedure. Its variables stand in this function's own frame, and not in that of each open block.
#[cycle(running)]
#[tactic(auto, using(crate::proofs::CallRules::start_read, crate::proofs::CallRules::body_stopped, crate::proofs::CallRules::body_returned, crate::proofs::CallRules::body_fell))]
pub fn run_body(
    scope: &Scope<'_>,
    values: &[u32; PARAMETERS],
    state: &mut State<'_, '_, '_>,
) -> Result<u32, Stop>
    requires { Ready scope.now.program.image.now scope.now.program.table.now scope.now.ends.now scope.now.me }
    ensures answer { returned result state.new ≡ body_run scope.now values.now state.old }
    ensures same { SameLent state.old state.new }
{
    let mut frame = frame_of(values);
    let level = largest_level(scope.program.form());
    let at = tables::body(scope.program.table, scope.me);
    match run_block(scope, &mut frame, state, at, level)? {
        Ran::Back(value) => Ok(value),
        Ran::On(_) => Ok(0),
    }
}

// The values, the entry, the procedure called; its result goes to the variable.
#[cycle(running)]
#[tactic(auto, using(crate::proofs::CallRules::arguments_read, crate::proofs::CallRules::callee_ready, crate::proofs::CallRules::call_stopped, crate::proofs::CallRules::call_full, crate::proofs::CallRules::callee_stopped, crate::proofs::CallRules::callee_gave))]
fn run_call(
    scope: &Scope<'_>,
    vars: &mut [u32; VARIABLES],
    state: &mut State<'_, '_, '_>,
    at: usize,
    level: u32,
) -> Result<Ran, Stop>
    requires { StatementRead level (params_in scope.now.program.table.now) scope.now.me scope.now.program.image.now at
        × Ready scope.now.program.image.now scope.now.program.table.now scope.now.ends.now scope.now.me
        × (op_of (get_or scope.now.program.image.now at 0) ≡ 5) }
    ensures answer { finished result vars.new state.new ≡ statement_run scope.now level at vars.old state.old }
    ensures same { SameLent state.old state.new }
{
    let w = scope.program.image[at];
    let f = called(w);
    let count = scope.program.parameters(f);
    let memory = Memory {
        program: scope.program,
        vars,
        cells: state.cells,
    };
    let mut values = [0u32; PARAMETERS];
    let next = arguments(&memory, state.trace, &mut values, count, at + 1, level - 1)?;
    state.trace.record(Entry::Called, at, f)?;
    let callee = Scope { me: f, ..*scope };
    let value = run_body(&callee, &values, state)?;
    put(vars, wide(result(w)), value);
    Ok(Ran::On(next))
}

// A statement whose step is taken.
#[cycle(running)]
#[tactic(auto, using(image_words::specs::StatementParts::op_there))]
fn run_statement(
    scope: &Scope<'_>,
    vars: &mut [u32; VARIABLES],
    state: &mut State<'_, '_, '_>,
    at: usize,
    level: u32,
) -> Result<Ran, Stop>
    requires { StatementRead level (params_in scope.now.program.table.now) scope.now.me scope.now.program.image.now at
        × Ready scope.now.program.image.now scope.now.program.table.now scope.now.ends.now scope.now.me }
    ensures answer { finished result vars.new state.new ≡ statement_run scope.now level at vars.old state.old }
    ensures same { SameLent state.old state.new }
{
    match ops::of(scope.program.image[at]) {
        Op::Assign => run_assign(scope, vars, state, at, level),
        Op::If => run_if(scope, vars, state, at, level),
        Op::For => run_for(scope, vars, state, at, level),
        Op::Store => run_store(scope, vars, state, at, level),
        Op::Return => run_return(scope, vars, state, at, level),
        Op::Call => run_call(scope, vars, state, at, level),
    }
}

// The block at a place: each statement begun costs a step.
#[cycle(running)]
#[tactic(auto, using(crate::proofs::BlockRules::block_begin_ok, crate::proofs::BlockRules::block_begin, crate::proofs::BlockRules::statement_read, crate::proofs::BlockRules::block_done, crate::proofs::BlockRules::block_ok, crate::proofs::BlockRules::block_spent, crate::proofs::BlockRules::block_stopped, crate::proofs::BlockRules::block_returned, crate::proofs::BlockRules::block_more))]
fn run_block(
    scope: &Scope<'_>,
    vars: &mut [u32; VARIABLES],
    state: &mut State<'_, '_, '_>,
    at: usize,
    level: u32,
) -> Result<Ran, Stop>
    requires { BlockRead level (params_in scope.now.program.table.now) scope.now.me scope.now.program.image.now at
        × Ready scope.now.program.image.now scope.now.program.table.now scope.now.ends.now scope.now.me }
    ensures answer { finished result vars.new state.new ≡ block_run scope.now level at vars.old state.old }
    ensures same { SameLent state.old state.new }
{
    let count = payload(scope.program.image[at]);
    let mut next = at + 1;
    for k in 0..count {
        state.steps = next_step(state.steps, scope.budget, next)?;
        match run_statement(scope, vars, state, next, level - 1)? {
            Ran::On(place) => next = place,
            Ran::Back(value) => return Ok(Ran::Back(value)),
        }
    }
    Ok(Ran::On(next))
}
