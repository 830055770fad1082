// The compiler on any image: the checks of the image and 14 first, then the words, then 15 and 16.
ghost use Rattle.std.specs.Prelude.{◌≡◌, true};
ghost use Rattle.definitions.specs.Checking.{fault_of};
ghost use Rattle.laws.specs.ImageIn.{image_in};
ghost use Rattle.compiler.specs.Compile.{compiled_on};

use super::compile_accepted;
use definitions::{Checked, Compiled};
use reasons::Reason;
use tables::SIZE;
use tables::programs::Program;

// An image that the checker accepted: "14 form 1 given", else the words and their refusals.
fn compile_checked(program: Program<'_>, out: &mut [u32]) -> Compiled
    requires { (fault_of (image_in program.image.now)).number ≡ 0 }
    ensures { (result, out.new) ≡ compiled_on true program.entry.image.now out.old }
{
    if program.form() != 0 {
        return Compiled::Refused(Reason::NoSource.number(), 0);
    }
    compile_accepted(program, out)
}

// Compiles an image of words into the lent array. The words are emitted once, before 15 and 16 are told: after these the array holds as many
// of them as it has room for, and whoever lends it hands on no more than the answer counts. `whole` tells whether the image came as whole words.
pub fn compile(image: &[u32], whole: bool, out: &mut [u32]) -> Compiled
    ensures { (result, out.new) ≡ compiled_on whole image.now out.old }
{
    let mut table = [0u32; SIZE];
    let mut ends = [0u16; 0];
    match checker::check_with(image, whole, &mut table, &mut ends) {
        Checked::Refused(number, place) => Compiled::Refused(number, place),
        Checked::Accepted => {
            let program = Program {
                image,
                table: &table,
            };
            compile_checked(program, out)
        }
    }
}
