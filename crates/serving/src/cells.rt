// Load and clear, which set every cell to 0; poke and peek, which reach one cell.
ghost use Rattle.std.specs.Prelude.{◌≡◌, ◌*◌, ◌≤◌, length, take};
ghost use Rattle.definitions.specs.Bytes.{words_of};
ghost use Rattle.definitions.specs.Host.{load_bytes, clear_bytes, poke_bytes, peek_bytes};
ghost use Rattle.tables.specs.Table.{arrays_in};
ghost use Rattle.requests.specs.Cells.{Fits};
ghost use Rattle.requests.specs.OwnCells.{poke_on, peek_on};
ghost use Rattle.requests.specs.ByteRequests.{afterwards};

use definitions::Answer;
use machine::{CELLS, FEW, Machine};
use ready::{ready_to_load, ready_to_serve};
use tables::{SIZE, Table};

// The cell that a poke or a peek names.
#[derive(Clone, Copy)]
struct Cell {
    array: u32,
    index: u32,
}

// "Load sets cells to 0".
pub fn load(image: &[u8], cells: &mut [u8]) -> Answer
    ensures { (result, cells.new) ≡ load_bytes image.now cells.old }
{
    let mut table = [0u32; SIZE];
    match ready_to_load(image, cells.len() / 4, &mut table) {
        Err(fault) => Answer::Refused(fault.number, fault.place),
        Ok(own) => Machine::<CELLS>::lent(cells, own).load().give_back(cells),
    }
}

// "Clear zeroes cells."
pub fn clear(image: &[u8], cells: &mut [u8]) -> Answer
    ensures { (result, cells.new) ≡ clear_bytes image.now cells.old }
{
    let mut table = [0u32; SIZE];
    match ready_to_serve(image, cells.len() / 4, &mut table) {
        Err(fault) => Answer::Refused(fault.number, fault.place),
        Ok(own) => Machine::<CELLS>::lent(cells, own).clear().give_back(cells),
    }
}

// A poke on a machine of at most N cells. It stands in a frame of its own, which the check of the image does not need beside its own.
#[inline(never)]
fn poke_machine<const N: usize>(
    table: &Table,
    cells: &mut [u8],
    own: usize,
    cell: Cell,
    v: u32,
) -> Answer
    requires { Fits table.now own × (own ≤ N) × (N ≤ 1024) × (4 * own ≤ length cells.old) }
    ensures { (result, cells.new) ≡ afterwards cells.old own (poke_on (arrays_in table.now) (take own (words_of cells.old)) cell.array cell.index v) }
{
    Machine::<N>::lent(cells, own)
        .poke(table, cell.array, cell.index, v)
        .give_back(cells)
}

// A poke on the image's own cells.
fn poke_cells(table: &Table, cells: &mut [u8], own: usize, cell: Cell, v: u32) -> Answer
    requires { Fits table.now own × (own ≤ 1024) × (4 * own ≤ length cells.old) }
    ensures { (result, cells.new) ≡ afterwards cells.old own (poke_on (arrays_in table.now) (take own (words_of cells.old)) cell.array cell.index v) }
{
    if own <= FEW {
        return poke_machine::<FEW>(table, cells, own, cell, v);
    }
    poke_machine::<CELLS>(table, cells, own, cell, v)
}

// Word v goes to cell i of array a.
pub fn poke(image: &[u8], cells: &mut [u8], a: u32, i: u32, v: u32) -> Answer
    ensures { (result, cells.new) ≡ poke_bytes image.now cells.old a i v }
{
    let mut table = [0u32; SIZE];
    match ready_to_serve(image, cells.len() / 4, &mut table) {
        Err(fault) => Answer::Refused(fault.number, fault.place),
        Ok(own) => poke_cells(&table, cells, own, Cell { array: a, index: i }, v),
    }
}

// A peek at the image's own cells, on a machine in a frame of its own as that of a poke.
#[inline(never)]
fn peek_cells(table: &Table, cells: &[u8], own: usize, cell: Cell) -> Answer
    requires { Fits table.now own × (own ≤ 1024) × (4 * own ≤ length cells.now) }
    ensures { result ≡ (peek_on (arrays_in table.now) (take own (words_of cells.now)) cell.array cell.index).0 }
{
    Machine::<CELLS>::lent(cells, own)
        .peek(table, cell.array, cell.index)
        .answer
}

// The word in cell i of array a.
pub fn peek(image: &[u8], cells: &[u8], a: u32, i: u32) -> Answer
    ensures { (result, cells.now) ≡ peek_bytes image.now cells.now a i }
{
    let mut table = [0u32; SIZE];
    match ready_to_serve(image, cells.len() / 4, &mut table) {
        Err(fault) => Answer::Refused(fault.number, fault.place),
        Ok(own) => peek_cells(&table, cells, own, Cell { array: a, index: i }),
    }
}
