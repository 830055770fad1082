// The procedures of an image, one after the other.
ghost use Rattle.std.specs.Prelude.{◌≡◌, ◌<◌, length};
ghost use Rattle.definitions.specs.Faults.{no_fault, least};
ghost use Rattle.definitions.specs.Sorts.{procedure_sort_faults, image_sort_faults};
ghost use Rattle.laws.specs.ImageIn.{image_in, procedures_in};
ghost use Rattle.tables.specs.Table.{array_count_in};
ghost use Rattle.tables.specs.Looking.{procedure_in};

use super::mark_table::Marks;
use super::marks::mark_block;
use super::statement_words::Body;
use super::{Scope, Words};
use definitions::Fault;
use image_words::limits::largest_level;
use tables::programs::Program;

// The procedure numbered `me`: its loop variables are marked before its statements are judged.
#[tactic(auto, using(crate::proofs::ProcedureRules::body_fine, crate::proofs::ProcedureRules::procedure_checked))]
fn check_procedure(program: Program, me: u32, best: Fault) -> Fault
    requires { me < length (image_in program.image.now).procedures }
    ensures { result ≡ least best (procedure_sort_faults (procedures_in program.entry.image.now) (array_count_in program.entry.table.now) (procedure_in program.entry.image.now me)) }
{
    let procedure = program.procedure(me);
    let scope = Scope {
        parameters: program.parameters(me),
        result: program.result_type(me),
    };
    let body = procedure.body();
    let level = largest_level(program.form());
    let words = Words {
        image: procedure.program.image,
        table: procedure.program.table,
        types: procedure.types,
        me: procedure.me,
    };
    let mut marks = Marks::new();
    mark_block(words, &mut marks, body, level);
    let walked = Body { words, scope }.check_block(&mut marks, body, level, best);
    walked.best
}

// The lowest of the faults 6 to 8 of an image that was read.
#[tactic(auto, using(crate::proofs::ProcedureRules::image_begins, faults::specs::Rest::procedures_done, faults::specs::Rest::procedures_more))]
pub fn check_image(program: Program) -> Fault
    ensures { result ≡ least no_fault (image_sort_faults (image_in program.entry.image.now)) }
{
    let mut found = Fault {
        number: 0,
        place: 0,
    };
    for me in 0..program.procedures() {
        found = check_procedure(program, me, found);
    }
    found
}
