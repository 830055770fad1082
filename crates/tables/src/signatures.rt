// What a call has to know of the procedure that it names: its mode, its result's type, its parameters' types.
ghost use Rattle.std.specs.Prelude.{◌≡◌, get_or};
ghost use Rattle.definitions.specs.Image.{guarded};
ghost use Rattle.definitions.specs.Sorts.{sort_of};
ghost use Rattle.tables.specs.Table.{place_in};
ghost use Rattle.tables.specs.Looking.{Listed, procedure_in};

use super::{SIZE, place};
use image_words::lists::{element, wide};
use image_words::{mode, type_sort, variables};

// The procedure's word.
pub fn procedure_word(image: &[u32], table: &[u32; SIZE], f: u32) -> u32
    ensures { result ≡ get_or image.now (place_in table.now f) 0 }
{
    element(image, place(table, f))
}

#[tactic(auto, using(crate::proofs::Rules::guarded_told))]
pub fn is_guarded(image: &[u32], table: &[u32; SIZE], f: u32) -> bool
    requires { Listed image.now table.now f }
    ensures { result ≡ guarded (procedure_in image.now f) }
{
    mode(procedure_word(image, table, f)) == 1
}

// The type word of its result.
#[tactic(auto, using(crate::proofs::Rules::result_told))]
pub fn result_type(image: &[u32], table: &[u32; SIZE], f: u32) -> u32
    requires { Listed image.now table.now f }
    ensures { result ≡ (procedure_in image.now f).result }
{
    element(image, place(table, f) + 1)
}

// The type word of its variable `k`, 0 where there is none.
pub fn variable_type(image: &[u32], table: &[u32; SIZE], f: u32, k: u32) -> u32
    requires { Listed image.now table.now f }
    ensures { result ≡ get_or (procedure_in image.now f).types k 0 }
{
    if k < variables(procedure_word(image, table, f)) {
        return element(image, place(table, f) + 1 + 1 + wide(k));
    }
    0
}

// The sort of its variable `k`, unknown (2) where there is none.
pub fn variable_sort(image: &[u32], table: &[u32; SIZE], f: u32, k: u32) -> u32
    requires { Listed image.now table.now f }
    ensures { result ≡ sort_of (procedure_in image.now f).types k }
{
    if k < variables(procedure_word(image, table, f)) {
        return type_sort(element(image, place(table, f) + 1 + 1 + wide(k)));
    }
    2
}
