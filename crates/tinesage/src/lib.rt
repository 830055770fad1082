// The library's functions on lent bytes, words most significant byte first; the crate tinesage_c hands each to C. Each writes its answer as seven
// words into the slice lent for it. No function has a condition: every number and every byte gets its answer.
#![tactic(auto)]

ghost use Rattle.tinesage.specs.Interface.{Checks, Compiles, Describes, Loads, Clears, Pokes, Peeks, Calls, Previews, Bounds, Compares};

// Checks an image.
pub fn tinesage_check(image: &[u8], answer: &mut [u8])
    ensures { Checks image.now answer.old answer.new }
{
    let a = lent_images::check_bytes(image);
    answers::put_checked(answer, a);
}

// Compiles an image in source form.
pub fn tinesage_compile(image: &[u8], out: &mut [u8], answer: &mut [u8])
    ensures { Compiles image.now out.old answer.old out.new answer.new }
{
    let a = lent_images::compile_bytes(image, out);
    answers::put_compiled(answer, a);
}

// Says what an image has: its form, its arrays, its procedures with their types.
pub fn tinesage_describe(image: &[u8], out: &mut [u8], answer: &mut [u8])
    ensures { Describes image.now out.old answer.old out.new answer.new }
{
    let a = lent_images::descriptions::describe_bytes(image, out);
    answers::put_compiled(answer, a);
}

// Loads an image: its cells are 0 afterwards.
pub fn tinesage_load(image: &[u8], cells: &mut [u8], answer: &mut [u8])
    ensures { Loads image.now cells.old answer.old cells.new answer.new }
{
    let a = serving::cells::load(image, cells);
    answers::put_answer(answer, a);
}

// Sets the image's cells to 0.
pub fn tinesage_clear(image: &[u8], cells: &mut [u8], answer: &mut [u8])
    ensures { Clears image.now cells.old answer.old cells.new answer.new }
{
    let a = serving::cells::clear(image, cells);
    answers::put_answer(answer, a);
}

// Writes one cell.
pub fn tinesage_poke(
    image: &[u8],
    cells: &mut [u8],
    array: u32,
    index: u32,
    value: u32,
    answer: &mut [u8],
)
    ensures { Pokes image.now cells.old array index value answer.old cells.new answer.new }
{
    let a = serving::cells::poke(image, cells, array, index, value);
    answers::put_answer(answer, a);
}

// Reads one cell.
pub fn tinesage_peek(image: &[u8], cells: &[u8], array: u32, index: u32, answer: &mut [u8])
    ensures { Peeks image.now cells.now array index answer.old answer.new }
{
    let a = serving::cells::peek(image, cells, array, index);
    answers::put_answer(answer, a);
}

// Runs a procedure.
pub fn tinesage_call(
    image: &[u8],
    cells: &mut [u8],
    procedure: u32,
    arguments: &[u8],
    budget: u32,
    trace: &mut [u8],
    answer: &mut [u8],
)
    ensures { Calls image.now cells.old procedure arguments.now budget trace.old answer.old
        cells.new trace.new answer.new }
{
    let a = serving::calls::call(image, cells, procedure, arguments, budget, trace);
    answers::put_answer(answer, a);
}

// Runs a procedure on a copy of the cells.
pub fn tinesage_preview(
    image: &[u8],
    cells: &[u8],
    procedure: u32,
    arguments: &[u8],
    budget: u32,
    trace: &mut [u8],
    answer: &mut [u8],
)
    ensures { Previews image.now cells.now procedure arguments.now budget trace.old answer.old
        trace.new answer.new }
{
    let a = serving::previews::preview(image, cells, procedure, arguments, budget, trace);
    answers::put_answer(answer, a);
}

// Says how many steps a call of a procedure takes at most.
pub fn tinesage_bound(image: &[u8], cells: &[u8], procedure: u32, answer: &mut [u8])
    ensures { Bounds image.now cells.now procedure answer.old answer.new }
{
    let a = serving::bounds::bound(image, cells, procedure);
    answers::put_answer(answer, a);
}

// Holds a board probe's recording against a trace.
pub fn tinesage_compare(trace: &[u8], probe: &[u8], answer: &mut [u8])
    ensures { Compares trace.now probe.now answer.old answer.new }
{
    let a = comparing::compare(trace, probe);
    answers::put_compared(answer, a);
}
