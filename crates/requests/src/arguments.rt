// A call's arguments and result, by the type words of the procedure.
ghost use Rattle.std.specs.Prelude.{◌≡◌, ◌/◌, ◌≤◌, length, replicate};
ghost use Rattle.definitions.specs.Bytes.{words_of};
ghost use Rattle.definitions.specs.Requests.{answered, argument_values};
ghost use Rattle.tables.specs.Table.{padded};

use image_words::type_sort;
use operators::{BOOLEAN, truth};

// The most arguments of a call.
pub const MOST: usize = 9;

// A boolean is 0 or 1; a word stays as it is.
pub fn answer_of(word: u32, v: u32) -> u32
    ensures { result ≡ answered word v }
{
    if type_sort(word) == BOOLEAN {
        truth(v)
    } else {
        v
    }
}

// The arguments at the front of an array of zeros. The type words are those of the called procedure's variables, its parameters first.
#[tactic(auto, using(crate::proofs::ArgumentRules::filling_none, crate::proofs::ArgumentRules::filling_done))]
pub fn fill_values(arguments: &[u8], types: &[u32], values: &mut [u32; MOST])
    requires { (length arguments.now / 4 ≤ length types.now) × (length arguments.now / 4 ≤ 9) × (values.old ≡ replicate 9 0) }
    ensures { values.new ≡ padded 9 (argument_values types.now (words_of arguments.now)) }
{
    for k in 0..arguments.len() / 4 {
        values[k] = answer_of(types[k], words::word(arguments, k));
    }
}
