// Reading blocks and statements, a cycle of calls under a falling level. The end of each block that was read is put into a lent table.
ghost use Rattle.std.specs.Prelude.{◌≡◌, true};
ghost use Rattle.definitions.specs.Reading.{read_block, read_statement};
ghost use Rattle.laws.specs.Parses.{ok, end_of};
ghost use Rattle.tables.specs.Table.{params_in};
ghost use Rattle.reader.specs.Answers.{answer};
ghost use Rattle.reader.specs.Ends.{Sound, BlockEnds};

use super::ends::{entry, mark};
use super::expressions::{read_arguments, read_expression};
use super::words::{ensure, word};
use definitions::Fault;
use image_words::ops::{self, Op};
use image_words::valid::{block_word, statement_word};
use image_words::{called, payload};
use reasons::Reason;
use tables::Table;

// Reads the procedure numbered `me`: the table has the number of parameters of each procedure before it.
#[derive(Clone, Copy)]
pub struct ProcedureReader<'a> {
    pub image: &'a [u32],
    pub table: &'a Table,
    pub me: u32,
}

impl ProcedureReader<'_> {
    #[cycle(blocks)]
    #[tactic(auto, using(crate::proofs::StatementRules::statement_rules))]
    fn read_statement(self, ends: &mut [u16], at: usize, level: u32) -> Result<usize, Fault>
        requires { Sound self.image.now (params_in self.table.now) self.me ends.old }
        ensures read { result ≡ answer (read_statement level (params_in self.entry.table.now) self.entry.me self.entry.image.now at) }
        ensures sound { Sound self.entry.image.now (params_in self.entry.table.now) self.entry.me ends.new }
    {
        let w = word(self.image, at)?;
        ensure(statement_word(self.me, w), Reason::Word, at)?;
        ensure(level != 0, Reason::TooDeep, at)?;
        let next = at + 1;
        let below = level - 1;
        match ops::of(w) {
            Op::Assign | Op::Return => read_expression(self.image, next, below),
            Op::Store => {
                let value = read_expression(self.image, next, below)?;
                read_expression(self.image, value, below)
            }
            Op::If => {
                let first = read_expression(self.image, next, below)?;
                let second = self.read_block(ends, first, below)?;
                self.read_block(ends, second, below)
            }
            Op::For => {
                let to = read_expression(self.image, next, below)?;
                let body = read_expression(self.image, to, below)?;
                self.read_block(ends, body, below)
            }
            Op::Call => {
                let count = tables::parameters(self.table, called(w));
                read_arguments(self.image, count, next, below)
            }
        }
    }

    // A block: a count, then that many statements. Its end is marked.
    #[cycle(blocks)]
    #[tactic(auto, using(crate::proofs::StatementRules::block_rules))]
    pub fn read_block(self, ends: &mut [u16], at: usize, level: u32) -> Result<usize, Fault>
        requires { Sound self.image.now (params_in self.table.now) self.me ends.old }
        ensures read { result ≡ answer (read_block level (params_in self.entry.table.now) self.entry.me self.entry.image.now at) }
        ensures sound { Sound self.entry.image.now (params_in self.entry.table.now) self.entry.me ends.new }
    {
        let w = word(self.image, at)?;
        ensure(block_word(w), Reason::Word, at)?;
        ensure(level != 0, Reason::TooDeep, at)?;
        let count = payload(w);
        let below = level - 1;
        let mut end = at + 1;
        for _ in 0..count {
            end = self.read_statement(ends, end, below)?;
        }
        mark(ends, at, end);
        Ok(end)
    }

    // The place after a block that is known to read: from the table, or where that has no entry by reading the block again.
    #[tactic(auto, using(crate::proofs::EndRules::end_rules))]
    pub fn block_end(self, ends: &[u16], at: usize, level: u32) -> usize
        requires { BlockEnds self.image.now (params_in self.table.now) ends.now × (ok (read_block level (params_in self.table.now) self.me self.image.now at) ≡ true) }
        ensures { result ≡ end_of (read_block level (params_in self.entry.table.now) self.entry.me self.entry.image.now at) }
    {
        match entry(ends, at) {
            Some(end) => end,
            None => self.read_block(&mut [], at, level).unwrap(),
        }
    }
}
