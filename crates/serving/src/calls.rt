// A call: the run's entries go into the lent trace as they arise.
ghost use Rattle.std.specs.Prelude.{◌≡◌, ◌/◌, ◌*◌, ◌≤◌, min, length, take, replicate};
ghost use Rattle.definitions.specs.Bytes.{words_of};
ghost use Rattle.definitions.specs.Requests.{called_on};
ghost use Rattle.definitions.specs.Host.{call_bytes};
ghost use Rattle.laws.specs.ImageIn.{image_in};
ghost use Rattle.machine.specs.Serving.{Serves};
ghost use Rattle.requests.specs.ByteRequests.{after_call};

use definitions::Answer;
use machine::{CELLS, Call, FEW, Machine};
use ready::prepare_to_serve;
use tables::SIZE;
use tables::programs::Program;
use words::images::{ENOUGH, LONGEST, SHORT, SMALL};

// On a machine of at most N cells.
fn call_machine<const N: usize>(
    program: Program<'_>,
    ends: &[u16],
    cells: &mut [u8],
    own: usize,
    request: Call<'_>,
    trace: &mut [u8],
) -> Answer
    requires { Serves program.image.now program.table.now ends.now own × (own ≤ N) × (N ≤ 1024) × (4 * own ≤ length cells.old) }
    ensures { (result, cells.new, trace.new) ≡ after_call cells.old own trace.old (called_on (image_in program.entry.image.now)
        (take own (words_of cells.old)) request.entry.procedure (words_of request.entry.arguments.now) request.entry.budget (length (words_of trace.old))) }
{
    let turn = Machine::<N>::lent(cells, own).call(program, ends, request, trace);
    turn.give_back(cells)
}

// On an image that is ready, with `own` cells.
fn call_cells(
    program: Program<'_>,
    ends: &[u16],
    cells: &mut [u8],
    own: usize,
    request: Call<'_>,
    trace: &mut [u8],
) -> Answer
    requires { Serves program.image.now program.table.now ends.now own × (own ≤ 1024) × (4 * own ≤ length cells.old) }
    ensures { (result, cells.new, trace.new) ≡ after_call cells.old own trace.old (called_on (image_in program.entry.image.now)
        (take own (words_of cells.old)) request.entry.procedure (words_of request.entry.arguments.now) request.entry.budget (length (words_of trace.old))) }
{
    if own <= FEW {
        return call_machine::<FEW>(program, ends, cells, own, request, trace);
    }
    call_machine::<CELLS>(program, ends, cells, own, request, trace)
}

// Working arrays are lent: for the image's words, and for the places where its blocks end.
fn call_with(
    image: &[u8],
    cells: &mut [u8],
    request: Call<'_>,
    trace: &mut [u8],
    words: &mut [u32],
    ends: &mut [u16],
) -> Answer
    requires { (min (length image.now / 4) 16384 ≤ length words.old) × (ends.old ≡ replicate (length ends.old) 0) }
    ensures { (result, cells.new, trace.new) ≡ call_bytes image.now cells.old request.entry.procedure request.entry.arguments.now request.entry.budget trace.old }
{
    let mut table = [0u32; SIZE];
    match prepare_to_serve(image, cells.len() / 4, words, &mut table, ends) {
        Err(fault) => Answer::Refused(fault.number, fault.place),
        Ok(own) => {
            let program = Program {
                image: &words[..image.len() / 4],
                table: &table,
            };
            call_cells(program, ends, cells, own, request, trace)
        }
    }
}

// An image of at most N words.
fn call_sized<const N: usize>(
    image: &[u8],
    cells: &mut [u8],
    request: Call<'_>,
    trace: &mut [u8],
) -> Answer
    requires { (min (length image.now / 4) 16384 ≤ N) × (N ≤ 16384) }
    ensures { (result, cells.new, trace.new) ≡ call_bytes image.now cells.old request.entry.procedure request.entry.arguments.now request.entry.budget trace.old }
{
    let mut words = [0u32; N];
    let mut ends = [0u16; N];
    call_with(image, cells, request, trace, &mut words, &mut ends)
}

// An image of any length. Its arrays stand in a frame of their own, which a short image does not need.
#[inline(never)]
fn call_long(image: &[u8], cells: &mut [u8], request: Call<'_>, trace: &mut [u8]) -> Answer
    ensures { (result, cells.new, trace.new) ≡ call_bytes image.now cells.old request.entry.procedure request.entry.arguments.now request.entry.budget trace.old }
{
    call_sized::<LONGEST>(image, cells, request, trace)
}

// Procedure f on the arguments, in at most `budget` steps. A longer image is cut by a call of itself: a function that calls itself takes no large
// frame into its own, so that a small routine needs no room for a long one's words.
pub fn call(
    image: &[u8],
    cells: &mut [u8],
    f: u32,
    arguments: &[u8],
    budget: u32,
    trace: &mut [u8],
) -> Answer
    ensures { (result, cells.new, trace.new) ≡ call_bytes image.now cells.old f arguments.now budget trace.old }
{
    if ENOUGH < image.len() {
        return call(&image[..ENOUGH], cells, f, arguments, budget, trace);
    }
    let request = Call {
        procedure: f,
        arguments,
        budget,
    };
    if image.len() <= 4 * SMALL {
        return call_sized::<SMALL>(image, cells, request, trace);
    }
    if image.len() <= 4 * SHORT {
        return call_sized::<SHORT>(image, cells, request, trace);
    }
    call_long(image, cells, request, trace)
}
