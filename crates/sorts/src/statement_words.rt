// The statements that hold blocks, and blocks: each word is walked once.
ghost use Rattle.std.specs.Prelude.{◌≡◌, get_or};
ghost use Rattle.definitions.specs.Image.{op_of};
ghost use Rattle.definitions.specs.Reading.{read_statement, read_block};
ghost use Rattle.laws.specs.ImageIn.{procedures_in};
ghost use Rattle.image_words.specs.Read.{StatementRead, BlockRead};
ghost use Rattle.tables.specs.Table.{array_count_in, params_in};
ghost use Rattle.tables.specs.Looking.{Listed};
ghost use Rattle.sorts.specs.Walk.{statement_walked, block_walked};

use super::expressions::Walk;
use super::leaves::{check_assign, check_call, check_return, check_store, note_loop};
use super::mark_table::{Mark, Marks};
use super::{Scope, Walked, Words};
use definitions::Fault;
use image_words::ops::Op;
use image_words::{ops, payload, target};
use operators::Sort;

// The body of a procedure of an image that was read, over which the marks change from block to block.
#[derive(Clone, Copy)]
pub struct Body<'a> {
    pub words: Words<'a>,
    pub scope: Scope,
    ghost listed: { Listed words.image.now words.table.now words.me },
}

impl Body<'_> {
    // A block: its statements in order.
    #[cycle(blocks)]
    #[tactic(auto, using(image_words::specs::Rest::next_statement, image_words::specs::Rest::block_ready, image_words::specs::Rest::block_begins, crate::proofs::BlockRules::block_again, crate::proofs::BlockRules::block_more, crate::proofs::BlockRules::block_done))]
    pub fn check_block(self, marks: &mut Marks, at: usize, level: u32, best: Fault) -> Walked
        requires { BlockRead level (params_in self.words.table.now) self.words.me self.words.image.now at }
        ensures { (result ≡ block_walked (procedures_in self.entry.words.image.now) self.entry.words.types.now (array_count_in self.entry.words.table.now) marks.old self.entry.scope best
            (read_block level (params_in self.entry.words.table.now) self.entry.words.me self.entry.words.image.now at)) × (marks.new ≡ marks.old) }
    {
        let count = payload(self.words.image[at]);
        let mut walked = Walked { next: at + 1, best };
        for _ in 0..count {
            walked = self.check_statement(marks, walked.next, level - 1, walked.best);
        }
        walked
    }

    // A statement, by its op.
    #[cycle(blocks)]
    #[tactic(auto, using(image_words::specs::StatementParts::op_there))]
    fn check_statement(self, marks: &mut Marks, at: usize, level: u32, best: Fault) -> Walked
        requires { StatementRead level (params_in self.words.table.now) self.words.me self.words.image.now at }
        ensures { (result ≡ statement_walked (procedures_in self.entry.words.image.now) self.entry.words.types.now (array_count_in self.entry.words.table.now) marks.old self.entry.scope at best
            (read_statement level (params_in self.entry.words.table.now) self.entry.words.me self.entry.words.image.now at)) × (marks.new ≡ marks.old) }
    {
        let walk = Walk {
            words: self.words,
            scope: self.scope,
            marks,
        };
        match ops::of(self.words.image[at]) {
            Op::Assign => check_assign(walk, at, level, best),
            Op::Store => check_store(walk, at, level, best),
            Op::If => self.check_if(marks, at, level, best),
            Op::For => self.check_for(marks, at, level, best),
            Op::Return => check_return(walk, at, level, best),
            Op::Call => check_call(self, marks, at, level, best),
        }
    }

    #[cycle(blocks)]
    #[tactic(auto, using(image_words::specs::StatementParts::read_if, crate::proofs::BlockRules::then_fine, crate::proofs::BlockRules::else_fine, crate::proofs::BlockRules::if_returns))]
    fn check_if(self, marks: &mut Marks, at: usize, level: u32, best: Fault) -> Walked
        requires { StatementRead level (params_in self.words.table.now) self.words.me self.words.image.now at × (op_of (get_or self.words.image.now at 0) ≡ 2) }
        ensures { (result ≡ statement_walked (procedures_in self.entry.words.image.now) self.entry.words.types.now (array_count_in self.entry.words.table.now) marks.old self.entry.scope at best
            (read_statement level (params_in self.entry.words.table.now) self.entry.words.me self.entry.words.image.now at)) × (marks.new ≡ marks.old) }
    {
        let inner = level - 1;
        let walk = Walk {
            words: self.words,
            scope: self.scope,
            marks,
        };
        let c = walk.check_operand(Some(Sort::Boolean), at + 1, inner, best);
        let a = self.check_block(marks, c.next, inner, c.best);
        self.check_block(marks, a.next, inner, a.best)
    }

    // A for: inside its block its variable may be read, and no other for is over it. Its mark is put back behind the block: a copy of the marks
    // for each for would stand on the stack once for each level.
    #[cycle(blocks)]
    #[tactic(auto, using(image_words::specs::StatementParts::read_bounds, crate::proofs::ExpressionRules::second_fine, crate::proofs::BlockRules::body_fine, crate::proofs::BlockRules::for_returns, faults::specs::Parts::put_back))]
    fn check_for(self, marks: &mut Marks, at: usize, level: u32, best: Fault) -> Walked
        requires { StatementRead level (params_in self.words.table.now) self.words.me self.words.image.now at × (op_of (get_or self.words.image.now at 0) ≡ 3) }
        ensures { (result ≡ statement_walked (procedures_in self.entry.words.image.now) self.entry.words.types.now (array_count_in self.entry.words.table.now) marks.old self.entry.scope at best
            (read_statement level (params_in self.entry.words.table.now) self.entry.words.me self.entry.words.image.now at)) × (marks.new ≡ marks.old) }
    {
        let x = target(self.words.image[at]);
        let inner = level - 1;
        let walk = Walk {
            words: self.words,
            scope: self.scope,
            marks,
        };
        let noted = note_loop(walk, x, at, best);
        let from = walk.check_operand(Some(Sort::Word), at + 1, inner, noted);
        let to = walk.check_operand(Some(Sort::Word), from.next, inner, from.best);
        let before = marks.get(x);
        marks.put(x, Mark::Inside);
        let b = self.check_block(marks, to.next, inner, to.best);
        marks.put(x, before);
        b
    }
}
