// The compiler over an image of form 0 that was read, with the table that reading it left.
#![tactic(auto)]

ghost use Rattle.std.specs.Prelude.{◌≡◌, ◌<◌, length};
ghost use Rattle.laws.specs.ImageIn.{image_in, procedures_in};
ghost use Rattle.definitions.specs.Encoding.{procedure_words, procedures_words, image_words};
ghost use Rattle.definitions.specs.Compiling.{compiled_procedures, compiled_image};
ghost use Rattle.writer.specs.Writing.{writes, Wrote};
ghost use Rattle.procedures.specs.Procedures.{procedure_for};
ghost use Rattle.compiler.specs.Compile.{answer_on};

use definitions::Compiled;
use image_words::limits::largest_image;
use image_words::lists::narrow;
use image_words::made::header_with;
use procedures::emit_procedure;
use reasons::Reason;
use tables::array_count;
use tables::programs::Program;
use writer::Output;

pub mod images; // any image: the checks first

// The procedure numbered `me`.
fn emit_one(program: Program<'_>, me: u32, out: &mut Output<'_>)
    requires { (me < length (image_in program.image.now).procedures) × ((image_in program.image.now).form ≡ 0) }
    ensures { Wrote out.old out.new (procedure_words (procedure_for program.entry.image.now me)) }
{
    emit_procedure(program.procedure(me), out);
}

// All procedures, from the first on.
#[tactic(auto, using(crate::proofs::Rules::each_more, crate::proofs::Rules::each_done))]
fn emit_each(program: Program<'_>, out: &mut Output<'_>)
    requires { (image_in program.image.now).form ≡ 0 }
    ensures { Wrote out.old out.new (procedures_words
        (compiled_procedures (procedures_in program.entry.image.now) (image_in program.entry.image.now).arrays (procedures_in program.entry.image.now))) }
{
    for me in 0..program.procedures() {
        emit_one(program, me, out);
    }
}

// The whole image.
#[tactic(auto, using(crate::proofs::Image::few, crate::proofs::Image::arrays_within))]
fn emit_image(program: Program<'_>, out: &mut Output<'_>)
    requires { (image_in program.image.now).form ≡ 0 }
    ensures { Wrote out.old out.new (image_words (compiled_image (image_in program.entry.image.now))) }
{
    let arrays = array_count(program.table);
    out.put(header_with(1, narrow(arrays), program.procedures()));
    out.put_all(&program.image[1..1 + arrays]);
    emit_each(program, out);
}

// The words of the whole image from the first on. Answers how many there are.
fn write_image(program: Program<'_>, words: &mut [u32]) -> usize
    requires { (image_in program.image.now).form ≡ 0 }
    ensures { (result, words.new) ≡ writes 0 words.old (image_words (compiled_image (image_in program.entry.image.now))) }
{
    let mut out = Output { words, place: 0 };
    emit_image(program, &mut out);
    out.place
}

// Compiles an image of form 0 that was read into the lent array, and tells the refusals from the place after the last word. Locals need no
// test: those of a compiled image always fit.
fn compile_accepted(program: Program<'_>, out: &mut [u32]) -> Compiled
    requires { (image_in program.image.now).form ≡ 0 }
    ensures { (result, out.new) ≡ answer_on (image_in program.entry.image.now) out.old }
{
    let end = write_image(program, out);
    if largest_image(1) < end {
        return Compiled::Refused(Reason::TooLarge.number(), 0);
    }
    if out.len() < end {
        return Compiled::Refused(Reason::OutputShort.number(), 0);
    }
    Compiled::Written(end)
}
