// Statements that run no block: assign, store and return.
ghost use Rattle.std.specs.Prelude.{◌≡◌, ◌<◌, ◌≤◌, get_or};
ghost use Rattle.definitions.specs.Image.{op_of};
ghost use Rattle.image_words.specs.Read.{StatementRead};
ghost use Rattle.tables.specs.Table.{params_in};
ghost use Rattle.simple_statements.specs.Runs.{SameLent, finished, statement_run};

use super::parts::slot;
use super::{Ran, Scope, State};
use evaluator::{Memory, VARIABLES, evaluate, operand};
use image_words::lists::{put, wide};
use image_words::target;
use tracing::{Entry, Stop};

// The value goes to the variable.
#[tactic(auto, using(crate::proofs::StatementRules::assign_read, crate::proofs::StatementRules::assign_stopped, crate::proofs::StatementRules::assign_done))]
pub fn run_assign(
    scope: &Scope<'_>,
    vars: &mut [u32; VARIABLES],
    state: &mut State<'_, '_, '_>,
    at: usize,
    level: u32,
) -> Result<Ran, Stop>
    requires { StatementRead level (params_in scope.now.program.table.now) scope.now.me scope.now.program.image.now at
        × (op_of (get_or scope.now.program.image.now at 0) ≡ 0) }
    ensures answer { finished result vars.new state.new ≡ statement_run scope.now level at vars.old state.old }
    ensures same { SameLent state.old state.new }
    ensures kept { state.new.cells.now ≡ state.old.cells.now }
{
    let x = target(scope.program.image[at]);
    let memory = Memory {
        program: scope.program,
        vars,
        cells: state.cells,
    };
    let value = operand(&memory, state.trace, at + 1, level - 1)?;
    put(vars, wide(x), value.word);
    Ok(Ran::On(value.next))
}

// The index is tested before the value is evaluated.
#[tactic(auto, using(crate::proofs::StatementRules::store_read, crate::proofs::StatementRules::stored_read, crate::proofs::StatementRules::store_stopped, crate::proofs::StatementRules::store_stopped2, crate::proofs::StatementRules::store_done))]
pub fn run_store(
    scope: &Scope<'_>,
    vars: &[u32; VARIABLES],
    state: &mut State<'_, '_, '_>,
    at: usize,
    level: u32,
) -> Result<Ran, Stop>
    requires { StatementRead level (params_in scope.now.program.table.now) scope.now.me scope.now.program.image.now at
        × (op_of (get_or scope.now.program.image.now at 0) ≡ 1) }
    ensures answer { finished result vars.now state.new ≡ statement_run scope.now level at vars.now state.old }
    ensures same { SameLent state.old state.new }
{
    let array = target(scope.program.image[at]);
    let memory = Memory {
        program: scope.program,
        vars,
        cells: state.cells,
    };
    let cell = slot(&memory, state.trace, at, array, level - 1)?;
    let value = operand(&memory, state.trace, cell.next, level - 1)?;
    put(state.cells, wide(cell.word), value.word);
    Ok(Ran::On(value.next))
}

// The value is evaluated before the return is recorded.
#[tactic(auto, using(crate::proofs::PartRules::place_near, crate::proofs::StatementRules::return_read, crate::proofs::StatementRules::return_stopped, crate::proofs::StatementRules::return_full, crate::proofs::StatementRules::return_done))]
pub fn run_return(
    scope: &Scope<'_>,
    vars: &[u32; VARIABLES],
    state: &mut State<'_, '_, '_>,
    at: usize,
    level: u32,
) -> Result<Ran, Stop>
    requires { StatementRead level (params_in scope.now.program.table.now) scope.now.me scope.now.program.image.now at
        × (op_of (get_or scope.now.program.image.now at 0) ≡ 4) }
    ensures answer { finished result vars.now state.new ≡ statement_run scope.now level at vars.now state.old }
    ensures same { SameLent state.old state.new }
    ensures kept { state.new.cells.now ≡ state.old.cells.now }
{
    let memory = Memory {
        program: scope.program,
        vars,
        cells: state.cells,
    };
    let value = evaluate(&memory, state.trace, at + 1, level - 1)?;
    state.trace.record(Entry::Returned, at, 0)?;
    Ok(Ran::Back(value.word))
}
