// The cells of an image: its arrays in order.
ghost use Rattle.std.specs.Prelude.{◌≡◌, ◌≤◌};
ghost use Rattle.definitions.specs.Image.{cell_count};
ghost use Rattle.tables.specs.Table.{array_count_in, arrays_in};
ghost use Rattle.requests.specs.Cells.{slot_in};

use image_words::array_length;
use image_words::lists::wide;
use tables::{Table, array, array_count, base};

// The number of cells of all arrays.
pub fn cell_count(table: &Table) -> usize
    requires { array_count_in table.now ≤ 16 }
    ensures { result ≡ cell_count (arrays_in table.now) }
{
    let mut total = 0;
    for k in 0..array_count(table) as u32 {
        total += wide(array_length(array(table, k)));
    }
    total
}

// Where cell i of array a stands among all cells, if there is such a cell.
#[tactic(auto, using(crate::proofs::CellRules::no_array, crate::proofs::CellRules::no_cell, crate::proofs::CellRules::cell_found))]
pub fn find_cell(table: &Table, a: u32, i: u32) -> Option<usize>
    ensures { result ≡ slot_in table.now a i }
{
    if array_count(table) <= wide(a) || array_length(array(table, a)) <= i {
        return None;
    }
    Some(wide(base(table, a)) + wide(i))
}
