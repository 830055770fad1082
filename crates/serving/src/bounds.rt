// A bound on the steps of a call, from the image alone; the lent cells are counted, and not looked at.
ghost use Rattle.std.specs.Prelude.{◌≡◌, ◌/◌, ◌≤◌, min, length};
ghost use Rattle.definitions.specs.Host.{bound_bytes};

use definitions::Answer;
use ready::prepare_to_serve;
use tables::SIZE;
use tables::programs::Program;
use words::images::{ENOUGH, LONGEST, SHORT};

// A working array is lent for the image's words. Where blocks end plays no part, so there is no array for that.
fn bound_with(image: &[u8], cells: &[u8], f: u32, words: &mut [u32]) -> Answer
    requires { min (length image.now / 4) 16384 ≤ length words.old }
    ensures { (result, cells.now) ≡ bound_bytes image.now cells.now f }
{
    let mut table = [0u32; SIZE];
    let mut ends = [0u16; 0];
    match prepare_to_serve(image, cells.len() / 4, words, &mut table, &mut ends) {
        Err(fault) => Answer::Refused(fault.number, fault.place),
        Ok(_) => {
            let program = Program {
                image: &words[..image.len() / 4],
                table: &table,
            };
            step_bounds::bound(program, f)
        }
    }
}

// An image of at most N words.
fn bound_sized<const N: usize>(image: &[u8], cells: &[u8], f: u32) -> Answer
    requires { (min (length image.now / 4) 16384 ≤ N) × (N ≤ 16384) }
    ensures { (result, cells.now) ≡ bound_bytes image.now cells.now f }
{
    let mut words = [0u32; N];
    bound_with(image, cells, f, &mut words)
}

// An image of any length. Its words stand in a frame of their own, which a short image does not need.
#[inline(never)]
fn bound_long(image: &[u8], cells: &[u8], f: u32) -> Answer
    ensures { (result, cells.now) ≡ bound_bytes image.now cells.now f }
{
    bound_sized::<LONGEST>(image, cells, f)
}

// The most steps that a call of procedure f can take. A longer image is cut by a call of itself, as in a call.
pub fn bound(image: &[u8], cells: &[u8], f: u32) -> Answer
    ensures { (result, cells.now) ≡ bound_bytes image.now cells.now f }
{
    if ENOUGH < image.len() {
        return bound(&image[..ENOUGH], cells, f);
    }
    if image.len() <= 4 * SHORT {
        return bound_sized::<SHORT>(image, cells, f);
    }
    bound_long(image, cells, f)
}
