// The table that reading an image leaves for the passes after: what they have to know of its arrays and procedures.
#![tactic(auto)]

use image_words::lists::{element, put, wide};

pub mod programs; // an image that was read, with its table
pub mod signatures; // what a call has to know of its procedure

ghost use Rattle.std.specs.Prelude.{◌≡◌, ◌+◌, ◌<◌, get_or, set, length};
ghost use Rattle.tables.specs.Table.{array_count_in, arrays_in, base_in, place_in, body_in, params_in};

// 16 array words, where the cells of each array begin, the number of arrays, and of 32 procedures the places of their words, the places of
// their bodies and their numbers of parameters.
const BASES: usize = 16;

const COUNT: usize = 32;

const PLACES: usize = 33;

const BODIES: usize = 65;

const PARAMETERS: usize = 97;

pub const SIZE: usize = 129;

pub type Table = [u32; SIZE];

// The number of arrays.
pub fn array_count(table: &[u32; SIZE]) -> usize
    ensures { (result ≡ array_count_in table.now) × (result < 4294967296) }
{
    wide(table[COUNT])
}

// The word of an array, 0 where there is none.
#[tactic(auto, using(crate::proofs::Rules::array_there, crate::proofs::Rules::array_none))]
pub fn array(table: &[u32; SIZE], a: u32) -> u32
    ensures { result ≡ get_or (arrays_in table.now) a 0 }
{
    let i = wide(a);
    if i < array_count(table) {
        return element(table, i);
    }
    0
}

// Where the cells of an array begin.
#[tactic(auto, using(crate::proofs::Rules::cast_at))]
pub fn base(table: &[u32; SIZE], a: u32) -> u32
    ensures { result ≡ base_in table.now a }
{
    element(table, BASES + wide(a))
}

// The place of a procedure's word.
#[tactic(auto, using(crate::proofs::Rules::cast_at))]
pub fn place(table: &[u32; SIZE], f: u32) -> usize
    ensures { (result ≡ place_in table.now f) × (result < 4294967296) }
{
    wide(element(table, PLACES + wide(f)))
}

// The place of a procedure's body.
#[tactic(auto, using(crate::proofs::Rules::cast_at))]
pub fn body(table: &[u32; SIZE], f: u32) -> usize
    ensures { (result ≡ body_in table.now f) × (result < 4294967296) }
{
    wide(element(table, BODIES + wide(f)))
}

// A procedure's number of parameters.
pub fn parameters(table: &[u32; SIZE], f: u32) -> u32
    ensures { result ≡ get_or (params_in table.now) f 0 }
{
    element(table, PARAMETERS + wide(f))
}

// One array more, behind n: its word, where its cells begin, the number of arrays.
#[tactic(auto, using(crate::proofs::Rules::stored_array))]
pub fn add_array(table: &mut [u32; SIZE], n: u32, w: u32, cells: u32)
    requires { n < 16 }
    ensures { table.new ≡ set (set (set table.old n w) (16 + n) cells) 32 (n + 1) }
{
    let i = wide(n);
    table[i] = w;
    table[BASES + i] = cells;
    table[COUNT] = n + 1;
}

// The procedure of a number: its place, its body's place, its number of parameters.
#[tactic(auto, using(crate::proofs::Rules::stored))]
pub fn add_procedure(table: &mut [u32; SIZE], f: u32, place: u32, body: u32, parameters: u32)
    requires { f < 32 }
    ensures { table.new ≡ set (set (set table.old (33 + f) place) (65 + f) body) (97 + f) parameters }
{
    let i = wide(f);
    table[PLACES + i] = place;
    table[BODIES + i] = body;
    table[PARAMETERS + i] = parameters;
}
