// The checker: reads an image, then judges its names, sorts and loop variables, then its labels.
#![tactic(auto)]

ghost use Rattle.std.specs.Prelude.{◌≡◌, true, length, replicate};
ghost use Rattle.definitions.specs.Reading.{read_image};
ghost use Rattle.definitions.specs.Checking.{fault_of, checked};
ghost use Rattle.laws.specs.ImageIn.{image_in};
ghost use Rattle.reader.specs.Left.{TablesLeft};
ghost use Rattle.checker.specs.Found.{some_fault};

use definitions::{Checked, Fault};
use labels::procedures::label_image;
use reader::image::read_image;
use sorts::procedures::check_image;
use tables::Table;
use tables::programs::Program;

// What a pass found: number 0 stands for no fault there, as in the definition `no_fault`.
fn found(fault: Fault) -> Option<Fault>
    ensures { result ≡ some_fault fault }
{
    (fault.number != 0).then_some(fault)
}

// The lowest fault of an image that was read: of 6 to 8, and where it has none of 9 to 13.
#[tactic(auto, using(crate::proofs::VerdictRules::fault_first))]
fn lowest_fault(program: Program) -> Option<Fault>
    ensures { result ≡ some_fault (fault_of (image_in program.entry.image.now)) }
{
    match found(check_image(program)) {
        Some(fault) => Some(fault),
        None => found(label_image(program)),
    }
}

// The verdict on an image that was read.
#[tactic(auto, using(crate::proofs::VerdictRules::verdict_judged))]
fn verdict(program: Program) -> Checked
    ensures { result ≡ checked true program.entry.image.now }
{
    match lowest_fault(program) {
        Some(Fault { number, place }) => Checked::Refused(number, place),
        None => Checked::Accepted,
    }
}

// Checks an image and leaves the reader's tables for the passes after; both come as zeros. `whole` tells whether the image came as whole words.
#[tactic(auto, using(crate::proofs::VerdictRules::refused_is, crate::proofs::VerdictRules::verdict_asks, crate::proofs::VerdictRules::accepted_is))]
pub fn check_with(image: &[u32], whole: bool, table: &mut Table, ends: &mut [u16]) -> Checked
    requires { (table.old ≡ replicate 129 0) × (ends.old ≡ replicate (length ends.old) 0) }
    ensures { (result ≡ checked whole image.now)
        × TablesLeft (read_image whole image.now) image.now table.new ends.new }
{
    match read_image(image, whole, table, ends) {
        Err(Fault { number, place }) => Checked::Refused(number, place),
        Ok(_) => verdict(Program { image, table }),
    }
}
