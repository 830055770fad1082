// Which variables of a procedure its fors name: marked as loop variables before its statements are judged.
ghost use Rattle.std.specs.Prelude.{◌≡◌};
ghost use Rattle.definitions.specs.Reading.{read_statement, read_block};
ghost use Rattle.image_words.specs.Read.{StatementRead, BlockRead};
ghost use Rattle.tables.specs.Table.{params_in};
ghost use Rattle.sorts.specs.Marking.{statement_marks, block_marks};

use super::Words;
use super::mark_table::{Mark, Marks};
use image_words::lists::wide;
use image_words::ops::Op;
use image_words::skipping::skip;
use image_words::{called, ops, payload, target};
use tables::parameters;

// A block: its statements in order.
#[cycle(marking)]
#[tactic(auto, using(image_words::specs::Rest::next_statement, image_words::specs::Rest::block_ready, image_words::specs::Rest::block_begins, crate::proofs::MarkRules::marks_again, crate::proofs::MarkRules::marks_more, crate::proofs::MarkRules::marks_done))]
pub fn mark_block(words: Words<'_>, marks: &mut Marks, at: usize, level: u32) -> usize
    requires { BlockRead level (params_in words.table.now) words.me words.image.now at }
    ensures { (result, marks.new) ≡ block_marks (read_block level (params_in words.entry.table.now) words.entry.me words.entry.image.now at) marks.old }
{
    let count = payload(words.image[at]);
    let mut a = at + 1;
    for _ in 0..count {
        a = mark_statement(words, marks, a, level - 1);
    }
    a
}

// A statement, by its op.
#[cycle(marking)]
#[tactic(auto, using(image_words::specs::StatementParts::op_there, crate::proofs::MarkRules::single_skips, crate::proofs::MarkRules::single_marks, crate::proofs::MarkRules::store_marks))]
fn mark_statement(words: Words<'_>, marks: &mut Marks, at: usize, level: u32) -> usize
    requires { StatementRead level (params_in words.table.now) words.me words.image.now at }
    ensures { (result, marks.new) ≡ statement_marks (read_statement level (params_in words.entry.table.now) words.entry.me words.entry.image.now at) marks.old }
{
    let image = words.image;
    let w = image[at];
    match ops::of(w) {
        Op::Assign | Op::Return => skip(image, at + 1, 1),
        Op::Store => skip(image, at + 1, 2),
        Op::If => {
            let c = skip(image, at + 1, 1);
            let a = mark_block(words, marks, c, level - 1);
            mark_block(words, marks, a, level - 1)
        }
        Op::For => {
            let body = skip(image, at + 1, 2);
            marks.put(target(w), Mark::Outside);
            mark_block(words, marks, body, level - 1)
        }
        Op::Call => skip(image, at + 1, wide(parameters(words.table, called(w)))),
    }
}
