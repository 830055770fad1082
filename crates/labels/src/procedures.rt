// The procedures of an image, one after the other.
ghost use Rattle.std.specs.Prelude.{◌≡◌, ◌<◌, length};
ghost use Rattle.definitions.specs.Faults.{no_fault, least};
ghost use Rattle.definitions.specs.Labels.{procedure_label_faults, image_label_faults};
ghost use Rattle.laws.specs.ImageIn.{image_in};
ghost use Rattle.tables.specs.Looking.{procedure_in};

use super::enclosing::Enclosing;
use super::statement_words::label_block;
use super::{Cursor, Scope, Walk};
use contexts::{Body, Context};
use definitions::Fault;
use image_words::limits::largest_level;
use tables::programs::Program;

// The procedure numbered `me`: in its body no variable has a bound yet and no return was met.
fn label_procedure(program: Program<'_>, me: u32, best: Fault) -> Fault
    requires { me < length (image_in program.image.now).procedures }
    ensures { result ≡ least best (procedure_label_faults (image_in program.entry.image.now) (procedure_in program.entry.image.now me)) }
{
    let procedure = program.procedure(me);
    let form = program.form();
    let walk = Walk {
        scope: Scope {
            body: Body::of(procedure),
            form,
            result: program.result_type(me),
        },
    };
    let start = Context {
        pc: program.is_guarded(me),
        rc: false,
    };
    let body = Cursor {
        at: procedure.body(),
        best,
    };
    let mut enclosing = Enclosing::none();
    let b = label_block(walk, &mut enclosing, start, body, largest_level(form));
    b.cursor.best
}

// The lowest of the faults 9 to 13 of an image that was read.
#[tactic(auto, using(crate::proofs::ProcedureRules::image_begins))]
pub fn label_image(program: Program<'_>) -> Fault
    ensures { result ≡ least no_fault (image_label_faults (image_in program.entry.image.now)) }
{
    let mut found = Fault {
        number: 0,
        place: 0,
    };
    for me in 0..program.procedures() {
        found = label_procedure(program, me, found);
    }
    found
}
