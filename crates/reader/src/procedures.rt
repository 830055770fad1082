// Reading type words, procedures and array words.
ghost use Rattle.std.specs.Prelude.{◌≡◌, ◌≤◌, ◌<◌, []};
ghost use Rattle.definitions.specs.Reading.{read_types, read_procedure, read_arrays};
ghost use Rattle.tables.specs.Table.{table_of, params_in};
ghost use Rattle.reader.specs.Answers.{answer};
ghost use Rattle.reader.specs.Ends.{Sound};
ghost use Rattle.reader.specs.Left.{ArraysLeft};

use super::statement_words::ProcedureReader;
use super::words::{ensure, word};
use definitions::Fault;
use image_words::limits::largest_level;
use image_words::valid::{array_word, procedure_word, type_word};
use image_words::{array_length, variables};
use reasons::Reason;
use tables::Table;

// `count` type words.
#[tactic(auto, using(crate::proofs::ProcedureRules::types_rules))]
pub fn read_types(image: &[u32], count: u32, mut at: usize) -> Result<usize, Fault>
    ensures { result ≡ answer (read_types count image.now at) }
{
    for _ in 0..count {
        ensure(type_word(word(image, at)?), Reason::Word, at)?;
        at += 1;
    }
    Ok(at)
}

impl ProcedureReader<'_> {
    // The procedure's word, its result's type, the types of its parameters and locals, its body.
    #[tactic(auto, using(crate::proofs::ProcedureRules::procedure_rules))]
    pub fn read_procedure(self, form: u32, ends: &mut [u16], at: usize) -> Result<usize, Fault>
        requires { (form < 2) × Sound self.image.now (params_in self.table.now) self.me ends.old }
        ensures read { result ≡ answer (read_procedure form (params_in self.entry.table.now) self.entry.me self.entry.image.now at) }
        ensures sound { Sound self.entry.image.now (params_in self.entry.table.now) self.entry.me ends.new }
    {
        let w = word(self.image, at)?;
        ensure(procedure_word(form, w), Reason::Word, at)?;
        let next = at + 1;
        ensure(type_word(word(self.image, next)?), Reason::Word, next)?;
        let body = read_types(self.image, variables(w), next + 1)?;
        self.read_block(ends, body, largest_level(form))
    }
}

// `count` array words, which go into the table.
#[tactic(auto, using(crate::proofs::ArrayRules::arrays_rules))]
pub fn read_arrays(
    image: &[u32],
    count: u32,
    mut at: usize,
    table: &mut Table,
) -> Result<usize, Fault>
    requires { (count ≤ 16) × (table.old ≡ table_of [] []) }
    ensures read { result ≡ answer (read_arrays count 0 image.now at) }
    ensures left { ArraysLeft (read_arrays count 0 image.now at) table.new }
{
    let mut cells = 0;
    for k in 0..count {
        let w = word(image, at)?;
        ensure(array_word(cells, w), Reason::Word, at)?;
        tables::add_array(table, k, w, cells);
        cells += array_length(w);
        at += 1;
    }
    Ok(at)
}
