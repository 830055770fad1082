// Reading a whole image: header, arrays, procedures. Fills the tables for the passes after.
ghost use Rattle.std.specs.Prelude.{◌≡◌, true, [], ◌≤◌, length, get_or, replicate};
ghost use Rattle.definitions.specs.Image.{form_of, procedures_of, header_word};
ghost use Rattle.definitions.specs.Reading.{read_procedures, read_rest, read_image};
ghost use Rattle.tables.specs.Table.{table_of, params_in};
ghost use Rattle.reader.specs.Answers.{answer};
ghost use Rattle.reader.specs.Ends.{Sound};
ghost use Rattle.reader.specs.Left.{Begun, ProceduresLeft, ImageLeft, TablesLeft};

use super::procedures::read_arrays;
use super::statement_words::ProcedureReader;
use super::words::ensure;
use definitions::Fault;
use image_words::limits::largest_image;
use image_words::valid::header_word;
use image_words::{arrays, form, parameters, procedures, variables};
use reasons::Reason;
use tables::Table;

// The procedures that a header tells of, which go into the table.
#[tactic(auto, using(crate::proofs::ImageRules::procedures_rules))]
fn read_procedures(
    image: &[u32],
    header: u32,
    table: &mut Table,
    ends: &mut [u16],
    mut at: usize,
) -> Result<usize, Fault>
    requires { (header_word header ≡ true) × (length image.now ≤ 16384) × Begun table.old × Sound image.now (params_in table.old) 0 ends.old }
    ensures read { result ≡ answer (read_procedures (procedures_of header) (form_of header) (params_in table.old) 0 image.now at) }
    ensures left { ProceduresLeft (form_of header) (procedures_of header) image.now table.old at table.new ends.new }
{
    let form = form(header);
    let count = procedures(header);
    for me in 0..count {
        let reader = ProcedureReader { image, table, me };
        let next = reader.read_procedure(form, ends, at)?;
        let w = image[at];
        let body = at + 1 + 1 + variables(w) as usize;
        tables::add_procedure(table, me, at as u32, body as u32, parameters(w));
        at = next;
    }
    Ok(at)
}

// What follows a header that was tested, up to the image's end: "4 [first spare word]".
#[tactic(auto, using(crate::proofs::ImageRules::rest_rules))]
fn read_rest(
    image: &[u32],
    header: u32,
    table: &mut Table,
    ends: &mut [u16],
) -> Result<usize, Fault>
    requires { (header_word header ≡ true) × (length image.now ≤ 16384) × (table.old ≡ table_of [] []) × Sound image.now (params_in table.old) 0 ends.old }
    ensures read { result ≡ answer (read_rest header image.now) }
    ensures left { ImageLeft (read_rest header image.now) image.now table.new ends.new }
{
    let first = read_arrays(image, arrays(header), 1, table)?;
    let end = read_procedures(image, header, table, ends, first)?;
    ensure(end == image.len(), Reason::SpareWord, end)?;
    Ok(end)
}

// An image, with tables of zeros. The header comes before the length.
#[tactic(auto, using(crate::proofs::ImageRules::image_rules))]
fn read_whole(
    image: &[u32],
    whole: bool,
    table: &mut Table,
    ends: &mut [u16],
) -> Result<usize, Fault>
    requires { (table.old ≡ table_of [] []) × Sound image.now (params_in table.old) 0 ends.old }
    ensures read { result ≡ answer (read_image whole image.now) }
    ensures left { ImageLeft (read_image whole image.now) image.now table.new ends.new }
{
    let Some(&header) = image.first() else {
        return Err(Reason::Length.at(0));
    };
    ensure(header_word(header), Reason::Word, 0)?;
    let most = largest_image(form(header));
    ensure(whole && image.len() <= most, Reason::Length, 0)?;
    read_rest(image, header, table, ends)
}

// Reads an image and leaves the tables for the passes after: what they have to know of arrays and procedures, and the place after each
// block, as far as `ends` is long enough. Both come as zeros, and a refusal leaves zeros. `whole` tells whether the image came as whole words:
// it stands beside the words, as in the definition `read_image`.
#[tactic(auto, using(crate::proofs::ImageRules::tables_rules))]
pub fn read_image(
    image: &[u32],
    whole: bool,
    table: &mut Table,
    ends: &mut [u16],
) -> Result<usize, Fault>
    requires { (table.old ≡ replicate 129 0) × (ends.old ≡ replicate (length ends.old) 0) }
    ensures read { result ≡ answer (read_image whole image.now) }
    ensures left { TablesLeft (read_image whole image.now) image.now table.new ends.new }
{
    let read = read_whole(image, whole, table, ends);
    if read.is_err() {
        table.fill(0);
        ends.fill(0);
    }
    read
}
