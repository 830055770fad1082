// Whether a request can work on a lent image, and how many cells the image has: it is checked anew with every request.
#![tactic(auto)]

ghost use Rattle.std.specs.Prelude.{◌≡◌, ◌/◌, ◌≤◌, min, length, take, replicate};
ghost use Rattle.definitions.specs.Bytes.{words_of};
ghost use Rattle.definitions.specs.Image.{cell_count};
ghost use Rattle.definitions.specs.Reading.{read_image};
ghost use Rattle.definitions.specs.Requests.{ready_to_load, ready_to_serve};
ghost use Rattle.definitions.specs.Host.{whole_words};
ghost use Rattle.tables.specs.Table.{array_count_in, arrays_in};
ghost use Rattle.reader.specs.Left.{TablesLeft};
ghost use Rattle.ready.specs.Prepared.{counted_on, readied, Prepared, table_left};

use definitions::{Checked, Fault};
use reasons::Reason;
use requests::cells::cell_count;
use tables::Table;
use words::images::{ENOUGH, LONGEST, SHORT, admissible, read_image};

// Whether enough cells are lent for an image that was accepted.
#[tactic(auto, using(crate::proofs::Rules::count_few, crate::proofs::Rules::count_enough))]
fn with_cells(table: &Table, count: usize) -> Result<usize, Fault>
    requires { array_count_in table.now ≤ 16 }
    ensures { result ≡ counted_on (cell_count (arrays_in table.now)) count }
{
    let cells = cell_count(table);
    if count < cells {
        return Err(Reason::Missing.at(0));
    }
    Ok(cells)
}

// The checker's verdict, then the cells.
fn judge(
    words: &[u32],
    whole: bool,
    count: usize,
    table: &mut Table,
    ends: &mut [u16],
) -> Result<usize, Fault>
    requires { (table.old ≡ replicate 129 0) × (ends.old ≡ replicate (length ends.old) 0) }
    ensures { (result ≡ readied (ready_to_load whole words.now count))
        × TablesLeft (read_image whole words.now) words.now table.new ends.new }
{
    match checker::check_with(words, whole, table, ends) {
        Checked::Refused(number, place) => Err(Fault { number, place }),
        Checked::Accepted => with_cells(table, count),
    }
}

// For a load, where `count` cells are lent. The image's words are left in `words`, what reading them found in the tables.
fn prepare(
    image: &[u8],
    count: usize,
    words: &mut [u32],
    table: &mut Table,
    ends: &mut [u16],
) -> Result<usize, Fault>
    requires { (min (length image.now / 4) 16384 ≤ length words.old) × (table.old ≡ replicate 129 0) × (ends.old ≡ replicate (length ends.old) 0) }
    ensures { Prepared result (ready_to_load (whole_words image.now) (words_of image.now) count) image.now
        words.old words.new table.new ends.new }
{
    let n = read_image(image, words);
    let whole = admissible(image);
    judge(&words[..n], whole, count, table, ends)
}

// The same for any other request: "outside load an empty one is 20".
pub fn prepare_to_serve(
    image: &[u8],
    count: usize,
    words: &mut [u32],
    table: &mut Table,
    ends: &mut [u16],
) -> Result<usize, Fault>
    requires { (min (length image.now / 4) 16384 ≤ length words.old) × (table.old ≡ replicate 129 0) × (ends.old ≡ replicate (length ends.old) 0) }
    ensures { Prepared result (ready_to_serve (whole_words image.now) (words_of image.now) count) image.now
        words.old words.new table.new ends.new }
{
    if image.len() == 0 {
        return Err(Reason::NothingLoaded.at(0)); // for a call
    }
    prepare(image, count, words, table, ends)
}

// An image of at most N words.
fn load_sized<const N: usize>(image: &[u8], count: usize, table: &mut Table) -> Result<usize, Fault>
    requires { (min (length image.now / 4) 16384 ≤ N) × (N ≤ 16384) × (table.old ≡ replicate 129 0) }
    ensures { (result ≡ readied (ready_to_load (whole_words image.now) (words_of image.now) count))
        × (table.new ≡ table_left (read_image (whole_words image.now) (words_of image.now))) }
{
    let mut words = [0u32; N];
    let mut ends = [0u16; 0];
    prepare(image, count, &mut words, table, &mut ends)
}

// A short image. Its words stand in a frame of their own, which a long one does not need beside its own.
#[inline(never)]
fn load_short(image: &[u8], count: usize, table: &mut Table) -> Result<usize, Fault>
    requires { (min (length image.now / 4) 16384 ≤ 512) × (table.old ≡ replicate 129 0) }
    ensures { (result ≡ readied (ready_to_load (whole_words image.now) (words_of image.now) count))
        × (table.new ≡ table_left (read_image (whole_words image.now) (words_of image.now))) }
{
    load_sized::<SHORT>(image, count, table)
}

// An image of any length. Its words stand in a frame of their own, which a short image does not need.
#[inline(never)]
fn load_long(image: &[u8], count: usize, table: &mut Table) -> Result<usize, Fault>
    requires { table.old ≡ replicate 129 0 }
    ensures { (result ≡ readied (ready_to_load (whole_words image.now) (words_of image.now) count))
        × (table.new ≡ table_left (read_image (whole_words image.now) (words_of image.now))) }
{
    load_sized::<LONGEST>(image, count, table)
}

// For a load, which needs no more than the table. A longer image is cut by a call of itself: a function that calls itself takes no large frame into
// its own, so that a small image needs no room for a long one's words.
pub fn ready_to_load(image: &[u8], count: usize, table: &mut Table) -> Result<usize, Fault>
    requires { table.old ≡ replicate 129 0 }
    ensures { (result ≡ readied (ready_to_load (whole_words image.now) (words_of image.now) count))
        × (table.new ≡ table_left (read_image (whole_words image.now) (words_of image.now))) }
{
    if ENOUGH < image.len() {
        return ready_to_load(&image[..ENOUGH], count, table);
    }
    if image.len() <= 4 * SHORT {
        return load_short(image, count, table);
    }
    load_long(image, count, table)
}

// For any other request that needs no more than the table.
pub fn ready_to_serve(image: &[u8], count: usize, table: &mut Table) -> Result<usize, Fault>
    requires { table.old ≡ replicate 129 0 }
    ensures { (result ≡ readied (ready_to_serve (whole_words image.now) (words_of image.now) count))
        × (table.new ≡ table_left (read_image (whole_words image.now) (words_of image.now))) }
{
    if image.len() == 0 {
        return Err(Reason::NothingLoaded.at(0));
    }
    ready_to_load(image, count, table)
}
