// The statements that hold no block: assign, store, return, call. Each takes the place of the statement's word.
ghost use Rattle.std.specs.Prelude.{◌≡◌, true, leb, get_or, length};
ghost use Rattle.definitions.specs.Image.{op_of};
ghost use Rattle.definitions.specs.Reading.{read_statement};
ghost use Rattle.definitions.specs.Faults.{least, fault_if};
ghost use Rattle.definitions.specs.Sorts.{loop_fault};
ghost use Rattle.laws.specs.Parses.{ok};
ghost use Rattle.laws.specs.ImageIn.{procedures_in};
ghost use Rattle.image_words.specs.Read.{StatementRead, arguments_at};
ghost use Rattle.tables.specs.Table.{array_count_in, params_in};
ghost use Rattle.tables.specs.Looking.{procedure_in};
ghost use Rattle.sorts.specs.Walk.{statement_walked, arguments_walked, target_noted};

use super::Walked;
use super::expressions::{Walk, note_missing, note_wrong_sort, sort_in, variable_sort};
use super::mark_table::{Mark, Marks};
use super::statement_words::Body;
use definitions::Fault;
use image_words::lists::{element, wide};
use image_words::{called, result, target, type_secret};
use operators::Sort;
use reasons::Reason;
use tables::array_count;
use tables::programs::Program;

// A variable that a statement writes: there has to be one, and no loop variable is written.
#[tactic(auto, using(crate::proofs::LeafRules::write_notes))]
fn note_write(walk: Walk, x: u32, at: usize, best: Fault) -> Fault
    ensures { result ≡ target_noted walk.entry.words.types.now walk.entry.marks.now x at best }
{
    let named = note_missing(best, walk.words.types.len(), x, at);
    let looped = walk.marks.get(x) != Mark::Ordinary;
    faults::note(named, looped, Reason::LoopVariable.number(), at)
}

// A for's variable: a public word local, over which no for stands around this one.
#[tactic(auto, using(crate::proofs::LeafRules::loop_notes))]
pub fn note_loop(walk: Walk, x: u32, at: usize, best: Fault) -> Fault
    ensures { result ≡ least (least best (fault_if (leb (length walk.entry.words.types.now) x) 6 at)) (loop_fault walk.entry.words.types.now walk.entry.scope.parameters walk.entry.marks.now x at) }
{
    let named = note_missing(best, walk.words.types.len(), x, at);
    let w = element(walk.words.types, wide(x));
    let parameter = x < walk.scope.parameters;
    let boolean = sort_in(w) == Sort::Boolean;
    let inside = walk.marks.get(x) == Mark::Inside;
    let broken = parameter | (type_secret(w) | (boolean | inside));
    faults::note(named, broken, Reason::LoopVariable.number(), at)
}

#[tactic(auto, using(image_words::specs::StatementParts::read_assign, crate::proofs::StatementRules::assign_returns))]
pub fn check_assign(walk: Walk, at: usize, level: u32, best: Fault) -> Walked
    requires { StatementRead level (params_in walk.words.table.now) walk.words.me walk.words.image.now at × (op_of (get_or walk.words.image.now at 0) ≡ 0) }
    ensures { result ≡ statement_walked (procedures_in walk.entry.words.image.now) walk.entry.words.types.now (array_count_in walk.entry.words.table.now) walk.entry.marks.now walk.entry.scope at best
        (read_statement level (params_in walk.entry.words.table.now) walk.entry.words.me walk.entry.words.image.now at) }
{
    let x = target(walk.words.image[at]);
    let noted = note_write(walk, x, at, best);
    let want = variable_sort(walk.words.types, x);
    let e = walk.check_operand(want, at + 1, level - 1, noted);
    Walked::from(e)
}

#[tactic(auto, using(image_words::specs::StatementParts::read_store, crate::proofs::ExpressionRules::second_fine, crate::proofs::StatementRules::store_returns))]
pub fn check_store(walk: Walk, at: usize, level: u32, best: Fault) -> Walked
    requires { StatementRead level (params_in walk.words.table.now) walk.words.me walk.words.image.now at × (op_of (get_or walk.words.image.now at 0) ≡ 1) }
    ensures { result ≡ statement_walked (procedures_in walk.entry.words.image.now) walk.entry.words.types.now (array_count_in walk.entry.words.table.now) walk.entry.marks.now walk.entry.scope at best
        (read_statement level (params_in walk.entry.words.table.now) walk.entry.words.me walk.entry.words.image.now at) }
{
    let array = target(walk.words.image[at]);
    let named = note_missing(best, array_count(walk.words.table), array, at);
    let i = walk.check_operand(Some(Sort::Word), at + 1, level - 1, named);
    let e = walk.check_operand(Some(Sort::Word), i.next, level - 1, i.best);
    Walked::from(e)
}

#[tactic(auto, using(image_words::specs::StatementParts::read_return, crate::proofs::StatementRules::return_returns))]
pub fn check_return(walk: Walk, at: usize, level: u32, best: Fault) -> Walked
    requires { StatementRead level (params_in walk.words.table.now) walk.words.me walk.words.image.now at × (op_of (get_or walk.words.image.now at 0) ≡ 4) }
    ensures { result ≡ statement_walked (procedures_in walk.entry.words.image.now) walk.entry.words.types.now (array_count_in walk.entry.words.table.now) walk.entry.marks.now walk.entry.scope at best
        (read_statement level (params_in walk.entry.words.table.now) walk.entry.words.me walk.entry.words.image.now at) }
{
    let want = Some(sort_in(walk.scope.result));
    let e = walk.check_operand(want, at + 1, level - 1, best);
    Walked::from(e)
}

// The values of a call, each of the sort of its parameter; `callee` has the type words of the called procedure's variables.
#[tactic(auto, using(image_words::specs::Rest::next_argument, crate::proofs::StatementRules::arguments_again, crate::proofs::StatementRules::arguments_more, crate::proofs::StatementRules::arguments_done))]
fn check_arguments(
    walk: Walk,
    callee: &[u32],
    count: u32,
    at: usize,
    level: u32,
    best: Fault,
) -> Walked
    requires { ok (arguments_at count level walk.words.image.now at) ≡ true }
    ensures { result ≡ arguments_walked walk.entry.words.types.now (array_count_in walk.entry.words.table.now) walk.entry.marks.now callee.now 0 best
        (arguments_at count level walk.entry.words.image.now at) }
{
    let mut walked = Walked { next: at, best };
    for k in 0..count {
        let want = variable_sort(callee, k);
        let e = walk.check_operand(want, walked.next, level, walked.best);
        walked = Walked::from(e);
    }
    walked
}

#[tactic(auto, using(faults::specs::Parts::call_listed, faults::specs::Parts::call_reads, crate::proofs::StatementRules::call_returns))]
pub fn check_call(body: Body<'_>, marks: &Marks, at: usize, level: u32, best: Fault) -> Walked
    requires { StatementRead level (params_in body.words.table.now) body.words.me body.words.image.now at × (op_of (get_or body.words.image.now at 0) ≡ 5) }
    ensures { result ≡ statement_walked (procedures_in body.entry.words.image.now) body.entry.words.types.now (array_count_in body.entry.words.table.now) marks.now body.entry.scope at best
        (read_statement level (params_in body.entry.words.table.now) body.entry.words.me body.entry.words.image.now at) }
{
    let walk = Walk {
        words: body.words,
        scope: body.scope,
        marks,
    };
    let program = Program {
        image: body.words.image,
        table: body.words.table,
    };
    let w = body.words.image[at];
    let f = called(w);
    let x = result(w);
    let noted = note_write(walk, x, at, best);
    let given = Some(sort_in(program.result_type(f)));
    let have = variable_sort(body.words.types, x);
    let judged = note_wrong_sort(noted, given, have, at);
    let callee = program.procedure(f).types;
    let count = program.parameters(f);
    check_arguments(walk, callee, count, at + 1, level - 1, judged)
}
