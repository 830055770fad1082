// The library's functions as C sees them. Slices cross as a pointer and a length in bytes. Each calls the function of its name in `tinesage`, and
// states its clauses again.
#![tactic(auto)]

ghost use Rattle.tinesage.specs.Interface.{Checks, Compiles, Describes, Loads, Clears, Pokes, Peeks, Calls, Previews, Bounds, Compares};

// Checks an image.
#[unsafe(no_mangle)]
pub extern "C" fn tinesage_check(image: &[u8], answer: &mut [u8])
    ensures { Checks image.now answer.old answer.new }
{
    tinesage::tinesage_check(image, answer)
}

// Compiles an image in source form.
#[unsafe(no_mangle)]
pub extern "C" fn tinesage_compile(image: &[u8], out: &mut [u8], answer: &mut [u8])
    ensures { Compiles image.now out.old answer.old out.new answer.new }
{
    tinesage::tinesage_compile(image, out, answer)
}

// Says what an image has: its form, its arrays, its procedures with their types.
#[unsafe(no_mangle)]
pub extern "C" fn tinesage_describe(image: &[u8], out: &mut [u8], answer: &mut [u8])
    ensures { Describes image.now out.old answer.old out.new answer.new }
{
    tinesage::tinesage_describe(image, out, answer)
}

// Loads an image: its cells are 0 afterwards.
#[unsafe(no_mangle)]
pub extern "C" fn tinesage_load(image: &[u8], cells: &mut [u8], answer: &mut [u8])
    ensures { Loads image.now cells.old answer.old cells.new answer.new }
{
    tinesage::tinesage_load(image, cells, answer)
}

// Sets the image's cells to 0.
#[unsafe(no_mangle)]
pub extern "C" fn tinesage_clear(image: &[u8], cells: &mut [u8], answer: &mut [u8])
    ensures { Clears image.now cells.old answer.old cells.new answer.new }
{
    tinesage::tinesage_clear(image, cells, answer)
}

// Writes one cell.
#[unsafe(no_mangle)]
pub extern "C" fn tinesage_poke(
    image: &[u8],
    cells: &mut [u8],
    array: u32,
    index: u32,
    value: u32,
    answer: &mut [u8],
)
    ensures { Pokes image.now cells.old array index value answer.old cells.new answer.new }
{
    tinesage::tinesage_poke(image, cells, array, index, value, answer)
}

// Reads one cell.
#[unsafe(no_mangle)]
pub extern "C" fn tinesage_peek(
    image: &[u8],
    cells: &[u8],
    array: u32,
    index: u32,
    answer: &mut [u8],
)
    ensures { Peeks image.now cells.now array index answer.old answer.new }
{
    tinesage::tinesage_peek(image, cells, array, index, answer)
}

// Runs a procedure.
#[unsafe(no_mangle)]
pub extern "C" fn tinesage_call(
    image: &[u8],
    cells: &mut [u8],
    procedure: u32,
    arguments: &[u8],
    budget: u32,
    trace: &mut [u8],
    answer: &mut [u8],
)
    ensures { Calls image.now cells.old procedure arguments.now budget trace.old answer.old
        cells.new trace.new answer.new }
{
    tinesage::tinesage_call(image, cells, procedure, arguments, budget, trace, answer)
}

// Runs a procedure on a copy of the cells.
#[unsafe(no_mangle)]
pub extern "C" fn tinesage_preview(
    image: &[u8],
    cells: &[u8],
    procedure: u32,
    arguments: &[u8],
    budget: u32,
    trace: &mut [u8],
    answer: &mut [u8],
)
    ensures { Previews image.now cells.now procedure arguments.now budget trace.old answer.old
        trace.new answer.new }
{
    tinesage::tinesage_preview(image, cells, procedure, arguments, budget, trace, answer)
}

// Says how many steps a call of a procedure takes at most.
#[unsafe(no_mangle)]
pub extern "C" fn tinesage_bound(image: &[u8], cells: &[u8], procedure: u32, answer: &mut [u8])
    ensures { Bounds image.now cells.now procedure answer.old answer.new }
{
    tinesage::tinesage_bound(image, cells, procedure, answer)
}

// Holds a board probe's recording against a trace.
#[unsafe(no_mangle)]
pub extern "C" fn tinesage_compare(trace: &[u8], probe: &[u8], answer: &mut [u8])
    ensures { Compares trace.now probe.now answer.old answer.new }
{
    tinesage::tinesage_compare(trace, probe, answer)
}
