// The most steps that a call of a procedure can take, from the image alone: the procedures up to it are walked once, in ascending order, so
// that the callees of each are known before it.
#![tactic(auto)]

use definitions::Answer;
use image_words::limits::largest_level;
use image_words::lists::wide;
use reasons::Reason;
use tables::programs::Program;

pub mod costs; // sums of steps that stop growing above the limit
pub mod walk; // a body: its cost, and what its calls lead to

ghost use Rattle.std.specs.Prelude.{◌≡◌, suc, ◌<◌, length, IfSome};
ghost use Rattle.definitions.specs.StepBounds.{procedure_cost, variable_fors};
ghost use Rattle.definitions.specs.Requests.{bounded, bound_on};
ghost use Rattle.laws.specs.ImageIn.{image_in, procedures_in};
ghost use Rattle.step_bounds.specs.Counting.{CountedProcedure, with_own, first_obstacle, judged};

use costs::CEILING;
use walk::{Counted, PROCEDURES, Summary, Walk, lower};

// What is known of a procedure that was not walked yet.
const NOTHING: Summary = Summary {
    cost: 0,
    first: None,
    lowest: None,
};

// What stands in the way of a bound.
#[derive(Clone, Copy, PartialEq, Eq)]
pub enum Obstacle {
    // a for of the procedure whose bounds are not constants, at its place
    OwnFor(usize),
    // one of a procedure that it calls, directly or through others: of the lowest such procedure
    CalleeFor(u32),
    // a cost above the limit
    AboveLimit,
}

// A procedure whose callees are known.
fn count_procedure(program: Program, callees: &[Summary; PROCEDURES], g: u32) -> Summary
    requires { g < length (image_in program.image.now).procedures }
    ensures { CountedProcedure (procedures_in program.entry.image.now) callees.now g result }
{
    let procedure = program.procedure(g);
    let walk = Walk {
        image: procedure.program.image,
        table: procedure.program.table,
        me: procedure.me,
        callees,
    };
    let start = Counted {
        at: procedure.body(),
        cost: 0,
        first: None,
        lowest: None,
    };
    let found = walk.count_block(start, largest_level(program.form()));
    Summary {
        cost: found.cost,
        first: found.first,
        lowest: found.lowest,
    }
}

// The lowest procedure with a for whose bounds are not constants, procedure g among them.
#[tactic(auto, unfolding(crate::specs::Counting::with_own))]
fn lowest_with(found: Summary, g: u32) -> Option<u32>
    ensures { result ≡ with_own found.first g found.lowest }
{
    match found.first {
        Some(_) => lower(Some(g), found.lowest),
        None => found.lowest,
    }
}

// "32 [the first for whose bounds are not constants, the procedure first, then all callees, direct or not, by number]; 33, a bound above
// 4,294,967,295, after 32".
#[tactic(auto, unfolding(crate::specs::Counting::obstacle_of))]
fn first_obstacle(found: Summary) -> Option<Obstacle>
    ensures { result ≡ first_obstacle found }
{
    if let Some(place) = found.first {
        return Some(Obstacle::OwnFor(place));
    }
    if let Some(callee) = found.lowest {
        return Some(Obstacle::CalleeFor(callee));
    }
    (CEILING <= found.cost).then_some(Obstacle::AboveLimit)
}

// The answer by what was found of the procedure, and of those before it.
#[tactic(auto, using(crate::proofs::Judging::callee_few, crate::proofs::Judging::cost_fits), unfolding(crate::specs::Counting::answered))]
fn judge(found: Summary, callees: &[Summary; PROCEDURES]) -> Answer
    requires { IfSome found.lowest (λ g. g < 32) }
    ensures { result ≡ judged found callees.now }
{
    match first_obstacle(found) {
        Some(Obstacle::OwnFor(place)) => Answer::Refused(Reason::VariableFor.number(), place),
        Some(Obstacle::CalleeFor(g)) => {
            let place = callees[wide(g)].first.unwrap_or(0);
            Answer::Refused(Reason::VariableFor.number(), place)
        }
        Some(Obstacle::AboveLimit) => Answer::Refused(Reason::AboveLimit.number(), 0),
        None => Answer::Done(found.cost as u32, 0, 0),
    }
}

// The bound of a procedure that is there.
fn bound_procedure(program: Program, f: u32) -> Answer
    requires { f < length (image_in program.image.now).procedures }
    ensures { result ≡ bounded (variable_fors (procedures_in program.entry.image.now) f) (procedure_cost (procedures_in program.entry.image.now) (suc f) f) }
{
    let mut callees = [NOTHING; PROCEDURES];
    for g in 0..f {
        let found = count_procedure(program, &callees, g);
        callees[wide(g)] = Summary {
            lowest: lowest_with(found, g),
            ..found
        };
    }
    let found = count_procedure(program, &callees, f);
    judge(found, &callees)
}

// "For a procedure of the loaded image, whichever its form, answer a bound from the image alone": of an image that was accepted.
#[tactic(auto, using(crate::proofs::ProcedureRules::bound_none, crate::proofs::ProcedureRules::bound_there))]
pub fn bound(program: Program, f: u32) -> Answer
    ensures { result ≡ bound_on (image_in program.entry.image.now) f }
{
    if program.procedures() <= f {
        return Answer::Refused(Reason::Missing.number(), 0);
    }
    bound_procedure(program, f)
}
