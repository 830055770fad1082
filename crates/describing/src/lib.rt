// What an image has, as a host needs it that is to lend cells and arguments: form, arrays, procedures with their types, a word for each.
#![tactic(auto)]

ghost use Rattle.std.specs.Prelude.{◌≡◌, ◌<◌, true, length};
ghost use mathlib.Core.List.{[], ◌∷◌, flat_map};
ghost use Rattle.definitions.specs.Image.{cell_count};
ghost use Rattle.definitions.specs.Checking.{fault_of};
ghost use Rattle.definitions.specs.Describing.{array_fields, parameter_type, parameter_types, procedure_fields, description, described};
ghost use Rattle.laws.specs.ImageIn.{image_in, procedures_in};
ghost use Rattle.tables.specs.Table.{arrays_in};
ghost use Rattle.tables.specs.Looking.{procedure_in};
ghost use Rattle.writer.specs.Writing.{Wrote};

use definitions::{Checked, Compiled};
use image_words::lists::{narrow, wide};
use image_words::{array_length, array_secret, mode, payload};
use reasons::Reason;
use requests::cells::cell_count;
use tables::programs::Program;
use tables::signatures::procedure_word;
use tables::{SIZE, array_count};
use writer::Output;

// The most parameters of a procedure, in any form: each procedure has words for so many types.
const MOST_PARAMETERS: u32 = 9;

// Form, numbers of arrays, procedures and cells.
const IMAGE_WORDS: usize = 4;

// Label and length.
const ARRAY_WORDS: usize = 2;

// Mode, number of parameters, the result's type, the parameters' types.
const PROCEDURE_WORDS: usize = 12;

// One array: its label, 0 public or 1 secret, and its length.
#[tactic(auto, using(crate::proofs::Rules::array_on))]
fn put_array(out: &mut Output<'_>, w: u32)
    ensures { Wrote out.old out.new (array_fields w) }
{
    out.put_all(&[u32::from(array_secret(w)), array_length(w)]);
}

// All arrays.
fn put_arrays(program: Program<'_>, out: &mut Output<'_>)
    ensures { Wrote out.old out.new (flat_map array_fields (arrays_in program.entry.table.now)) }
{
    for a in 0..narrow(array_count(program.table)) {
        put_array(out, program.array(a));
    }
}

// The type of a parameter, 0 past the last.
fn parameter_type(program: Program<'_>, f: u32, k: u32) -> u32
    requires { f < length (image_in program.image.now).procedures }
    ensures { result ≡ parameter_type (procedure_in program.entry.image.now f) k }
{
    if k < program.parameters(f) {
        return payload(program.variable_type(f, k));
    }
    0
}

// The types of a procedure's parameters.
fn put_types(program: Program<'_>, out: &mut Output<'_>, f: u32)
    requires { f < length (image_in program.image.now).procedures }
    ensures { Wrote out.old out.new (parameter_types (procedure_in program.entry.image.now f) 9 0) }
{
    for k in 0..MOST_PARAMETERS {
        out.put(parameter_type(program, f, k));
    }
}

// One procedure.
fn put_procedure(program: Program<'_>, out: &mut Output<'_>, f: u32)
    requires { f < length (image_in program.image.now).procedures }
    ensures { Wrote out.old out.new (procedure_fields (procedure_in program.entry.image.now f)) }
{
    let mode = mode(procedure_word(program.image, program.table, f));
    let res = payload(program.result_type(f));
    out.put_all(&[mode, program.parameters(f), res]);
    put_types(program, out, f);
}

// All procedures.
fn put_procedures(program: Program<'_>, out: &mut Output<'_>)
    ensures { Wrote out.old out.new (flat_map procedure_fields (procedures_in program.entry.image.now)) }
{
    for f in 0..program.procedures() {
        put_procedure(program, out, f);
    }
}

// The form, and how many arrays, procedures and cells there are.
#[tactic(auto, using(crate::proofs::Rules::arrays_few, crate::proofs::Rules::cells_fit, crate::proofs::Rules::counts_on))]
fn put_counts(program: Program<'_>, out: &mut Output<'_>)
    ensures { Wrote out.old out.new ((image_in program.entry.image.now).form
        ∷ (length (image_in program.entry.image.now).arrays ∷ (length (procedures_in program.entry.image.now)
        ∷ (cell_count (image_in program.entry.image.now).arrays ∷ [])))) }
{
    let arrays = narrow(array_count(program.table));
    let cells = narrow(cell_count(program.table));
    out.put_all(&[program.form(), arrays, program.procedures(), cells]);
}

// The whole image.
fn put_image(program: Program<'_>, out: &mut Output<'_>)
    ensures { Wrote out.old out.new (description (image_in program.entry.image.now)) }
{
    put_counts(program, out);
    put_arrays(program, out);
    put_procedures(program, out);
}

// How many words that is.
#[tactic(auto, using(crate::proofs::Rules::size_is))]
fn size(program: Program<'_>) -> usize
    ensures { result ≡ length (description (image_in program.entry.image.now)) }
{
    IMAGE_WORDS
        + ARRAY_WORDS * array_count(program.table)
        + PROCEDURE_WORDS * wide(program.procedures())
}

// An image that the checker accepted.
fn describe_accepted(program: Program<'_>, out: &mut [u32]) -> Compiled
    requires { (fault_of (image_in program.image.now)).number ≡ 0 }
    ensures { (result, out.new) ≡ described true program.entry.image.now out.old }
{
    let count = size(program);
    if out.len() < count {
        return Compiled::Refused(Reason::OutputShort.number(), 0);
    }
    put_image(
        program,
        &mut Output {
            words: out,
            place: 0,
        },
    );
    Compiled::Written(count)
}

// Describes an image of words into the lent slice, whose words past the result stay. `whole` tells whether the image came as whole words.
pub fn describe(image: &[u32], whole: bool, out: &mut [u32]) -> Compiled
    ensures { (result, out.new) ≡ described whole image.now out.old }
{
    let mut table = [0u32; SIZE];
    let mut ends = [0u16; 0];
    match checker::check_with(image, whole, &mut table, &mut ends) {
        Checked::Refused(number, place) => Compiled::Refused(number, place),
        Checked::Accepted => {
            let program = Program {
                image,
                table: &table,
            };
            describe_accepted(program, out)
        }
    }
}
