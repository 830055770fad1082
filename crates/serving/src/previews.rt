// A preview: the machine that a call would run on is made from the lent cells, and nothing of it goes back there.
ghost use Rattle.std.specs.Prelude.{◌≡◌, ◌/◌, ◌*◌, ◌≤◌, min, length, take, replicate};
ghost use Rattle.definitions.specs.Bytes.{words_of, lent};
ghost use Rattle.definitions.specs.Requests.{called_on};
ghost use Rattle.definitions.specs.Host.{preview_bytes};
ghost use Rattle.laws.specs.ImageIn.{image_in};
ghost use Rattle.machine.specs.Serving.{Serves};

use definitions::Answer;
use machine::{CELLS, Call, FEW, Machine};
use ready::prepare_to_serve;
use tables::SIZE;
use tables::programs::Program;
use words::images::{ENOUGH, LONGEST, SHORT, SMALL};

// On a machine of at most N cells. It and the copy that the run works on stand in a frame of their own, which the check of the image does not need
// beside its own.
#[inline(never)]
fn preview_machine<const N: usize>(
    program: Program<'_>,
    ends: &[u16],
    cells: &[u8],
    own: usize,
    request: Call<'_>,
    trace: &mut [u8],
) -> Answer
    requires { Serves program.image.now program.table.now ends.now own × (own ≤ N) × (N ≤ 1024) × (4 * own ≤ length cells.now) }
    ensures answer { result ≡ (called_on (image_in program.entry.image.now) (take own (words_of cells.now)) request.entry.procedure
        (words_of request.entry.arguments.now) request.entry.budget (length (words_of trace.old))).0 }
    ensures entries { trace.new ≡ lent trace.old (called_on (image_in program.entry.image.now) (take own (words_of cells.now)) request.entry.procedure
        (words_of request.entry.arguments.now) request.entry.budget (length (words_of trace.old))).2 }
{
    let machine = Machine::<N>::lent(cells, own);
    machine.preview(program, ends, request, trace).answer
}

// On an image that is ready, with `own` cells.
fn preview_cells(
    program: Program<'_>,
    ends: &[u16],
    cells: &[u8],
    own: usize,
    request: Call<'_>,
    trace: &mut [u8],
) -> Answer
    requires { Serves program.image.now program.table.now ends.now own × (own ≤ 1024) × (4 * own ≤ length cells.now) }
    ensures answer { result ≡ (called_on (image_in program.entry.image.now) (take own (words_of cells.now)) request.entry.procedure
        (words_of request.entry.arguments.now) request.entry.budget (length (words_of trace.old))).0 }
    ensures entries { trace.new ≡ lent trace.old (called_on (image_in program.entry.image.now) (take own (words_of cells.now)) request.entry.procedure
        (words_of request.entry.arguments.now) request.entry.budget (length (words_of trace.old))).2 }
{
    if own <= FEW {
        return preview_machine::<FEW>(program, ends, cells, own, request, trace);
    }
    preview_machine::<CELLS>(program, ends, cells, own, request, trace)
}

// Working arrays are lent: for the image's words, and for the places where its blocks end.
fn preview_with(
    image: &[u8],
    cells: &[u8],
    request: Call<'_>,
    trace: &mut [u8],
    words: &mut [u32],
    ends: &mut [u16],
) -> Answer
    requires { (min (length image.now / 4) 16384 ≤ length words.old) × (ends.old ≡ replicate (length ends.old) 0) }
    ensures { (result, cells.now, trace.new) ≡ preview_bytes image.now cells.now request.entry.procedure request.entry.arguments.now request.entry.budget trace.old }
{
    let mut table = [0u32; SIZE];
    match prepare_to_serve(image, cells.len() / 4, words, &mut table, ends) {
        Err(fault) => Answer::Refused(fault.number, fault.place),
        Ok(own) => {
            let program = Program {
                image: &words[..image.len() / 4],
                table: &table,
            };
            preview_cells(program, ends, cells, own, request, trace)
        }
    }
}

// An image of at most N words.
fn preview_sized<const N: usize>(
    image: &[u8],
    cells: &[u8],
    request: Call<'_>,
    trace: &mut [u8],
) -> Answer
    requires { (min (length image.now / 4) 16384 ≤ N) × (N ≤ 16384) }
    ensures { (result, cells.now, trace.new) ≡ preview_bytes image.now cells.now request.entry.procedure request.entry.arguments.now request.entry.budget trace.old }
{
    let mut words = [0u32; N];
    let mut ends = [0u16; N];
    preview_with(image, cells, request, trace, &mut words, &mut ends)
}

// An image of any length. Its arrays stand in a frame of their own, which a short image does not need.
#[inline(never)]
fn preview_long(image: &[u8], cells: &[u8], request: Call<'_>, trace: &mut [u8]) -> Answer
    ensures { (result, cells.now, trace.new) ≡ preview_bytes image.now cells.now request.entry.procedure request.entry.arguments.now request.entry.budget trace.old }
{
    preview_sized::<LONGEST>(image, cells, request, trace)
}

// Procedure f on the arguments, in at most `budget` steps, over cells that are only read. A longer image is cut by a call of itself, as in a call.
pub fn preview(
    image: &[u8],
    cells: &[u8],
    f: u32,
    arguments: &[u8],
    budget: u32,
    trace: &mut [u8],
) -> Answer
    ensures { (result, cells.now, trace.new) ≡ preview_bytes image.now cells.now f arguments.now budget trace.old }
{
    if ENOUGH < image.len() {
        return preview(&image[..ENOUGH], cells, f, arguments, budget, trace);
    }
    let request = Call {
        procedure: f,
        arguments,
        budget,
    };
    if image.len() <= 4 * SMALL {
        return preview_sized::<SMALL>(image, cells, request, trace);
    }
    if image.len() <= 4 * SHORT {
        return preview_sized::<SHORT>(image, cells, request, trace);
    }
    preview_long(image, cells, request, trace)
}
