// A compiled procedure: its word, its types, its body.
#![tactic(auto)]

ghost use Rattle.std.specs.Prelude.{◌≡◌, [], ◌∷◌, ◌++◌, ◌+◌, ◌≤◌, length, take, drop};
ghost use Rattle.definitions.specs.Choice.{pick};
ghost use Rattle.definitions.specs.Encoding.{word_with, statement_word_with, statement_count, statements_words, block_words, procedure_words};
ghost use Rattle.definitions.specs.Compiling.{secret_boolean, secret_of, pair_types};
ghost use Rattle.laws.specs.ImageIn.{image_in};
ghost use Rattle.operators.specs.Numbers.{sort_number};
ghost use Rattle.tables.specs.Looking.{procedure_in};
ghost use Rattle.writer.specs.Writing.{Wrote};
ghost use Rattle.procedures.specs.Procedures.{Described, numbers_of, head_for, types_of, body_for, procedure_for};

use emission::{Cursor, Scope, Walk};
use image_words::kinds::Kind;
use image_words::limits::largest_level;
use image_words::lists::{narrow, wide};
use image_words::made::{
    RETURN_WORD, SECRET_BOOLEAN, TRUE_WORD, block_with, procedure_with, secret_of, statement_with,
    word_with,
};
use image_words::ops::Op;
use locals::{Found, find_block};
use operators::Sort;
use tables::programs::Procedure;
use writer::Output;

// What is known of a source procedure: whether it is guarded, the number of its parameters, its result's type word; and of its body whether
// any return is deferred, the nesting levels of its secret ifs, and which temporaries it needs.
#[derive(Clone, Copy)]
struct Source {
    guarded: bool,
    parameters: u32,
    result: u32,
    defers: bool,
    levels: u32,
    words: bool,
    booleans: bool,
}

// The variables of the compiled procedure: the first of the source's that moves, RV, T of the outermost level, the temporaries, and how
// many variables there are.
#[derive(Clone, Copy)]
struct Numbers {
    first: u32,
    rv: u32,
    pair: u32,
    word: u32,
    boolean: u32,
    count: u32,
}

fn describe(procedure: Procedure<'_>) -> Source
    requires form { (image_in procedure.program.image.now).form ≡ 0 }
    requires typed { procedure.types.now ≡ (procedure_in procedure.program.image.now procedure.me).types }
    ensures { Described procedure.entry.program.image.now procedure.entry.me result }
{
    let program = procedure.program;
    let guarded = program.is_guarded(procedure.me);
    let before = Found {
        at: procedure.body(),
        rc: false,
        levels: 0,
        words: false,
        booleans: false,
    };
    let d = find_block(procedure, guarded, before, largest_level(0));
    Source {
        guarded,
        parameters: program.parameters(procedure.me),
        result: program.result_type(procedure.me),
        defers: d.rc,
        levels: d.levels,
        words: d.words,
        booleans: d.booleans,
    }
}

// The first variable that moves: a guarded procedure's first local; none of an open one.
fn first_moved(guarded: bool, n: u32, size: u32) -> u32
    ensures { result ≡ pick guarded n size }
{
    if guarded { n } else { size }
}

// The variables of the compiled procedure, where the source has so many.
#[tactic(auto, using(crate::proofs::Whole::flag_small, crate::proofs::Whole::numbered))]
fn number(source: Source, size: u32) -> Numbers
    requires { (size ≤ 255) × (source.levels ≤ 100) }
    ensures { (result ≡ numbers_of source size) × (result.count ≤ 1000) }
{
    let rv = size + u32::from(source.guarded);
    let pair = rv + 2 * u32::from(source.defers);
    let word = pair + 2 * source.levels;
    let boolean = word + u32::from(source.words);
    Numbers {
        first: first_moved(source.guarded, source.parameters, size),
        rv,
        pair,
        word,
        boolean,
        count: boolean + u32::from(source.booleans),
    }
}

// The type word of the guard of a guarded procedure.
#[tactic(auto, using(crate::proofs::Words::chosen_none), unfolding(writer::specs::Writing::writes))]
fn emit_guard_type(guarded: bool, out: &mut Output<'_>)
    ensures { Wrote out.old out.new (pick guarded (secret_boolean ∷ []) []) }
{
    if guarded {
        out.put(SECRET_BOOLEAN);
    }
}

// The source's types, the guard's between those of the n parameters and those of the locals.
fn emit_kept_types(types: &[u32], n: usize, guarded: bool, out: &mut Output<'_>)
    requires { n ≤ length types.now }
    ensures { Wrote out.old out.new (take n types.now ++ (pick guarded (secret_boolean ∷ []) [] ++ drop n types.now)) }
{
    out.put_all(&types[..n]);
    emit_guard_type(guarded, out);
    out.put_all(&types[n..]);
}

// The types of RV and LIVE where a return is deferred.
#[tactic(auto, using(crate::proofs::Words::chosen_run, crate::proofs::Words::chosen_none))]
fn emit_return_types(defers: bool, res: u32, out: &mut Output<'_>)
    ensures { Wrote out.old out.new (pick defers (res ∷ (secret_boolean ∷ [])) []) }
{
    if defers {
        out.put_all(&[res, SECRET_BOOLEAN]);
    }
}

// The types of the pairs, T and E of each level.
#[tactic(auto, using(crate::proofs::Words::pairs_begin, crate::proofs::Words::pairs_done, crate::proofs::Words::pairs_more))]
fn emit_pair_types(levels: u32, out: &mut Output<'_>)
    ensures { Wrote out.old out.new (pair_types levels) }
{
    for _ in 0..levels {
        out.put_all(&[SECRET_BOOLEAN, SECRET_BOOLEAN]);
    }
}

// The type of the temporary for results of a sort, if it is needed.
#[tactic(auto, using(crate::proofs::Words::chosen_none), unfolding(writer::specs::Writing::writes))]
fn emit_temporary_type(sort: Sort, needed: bool, out: &mut Output<'_>)
    ensures { Wrote out.old out.new (pick needed (secret_of (sort_number sort) ∷ []) []) }
{
    if needed {
        out.put(secret_of(sort as u32));
    }
}

// The types of all variables.
fn emit_types(types: &[u32], source: Source, out: &mut Output<'_>)
    requires { source.parameters ≤ length types.now }
    ensures { Wrote out.old out.new (types_of source types.now) }
{
    emit_kept_types(types, wide(source.parameters), source.guarded, out);
    emit_return_types(source.defers, source.result, out);
    emit_pair_types(source.levels, out);
    emit_temporary_type(Sort::Word, source.words, out);
    emit_temporary_type(Sort::Boolean, source.booleans, out);
}

// LIVE := true where a return is deferred; LIVE follows RV.
#[tactic(auto, using(crate::proofs::Words::live_on, crate::proofs::Words::chosen_none))]
fn emit_live(rv: u32, defers: bool, out: &mut Output<'_>)
    requires { rv ≤ 1000 }
    ensures { Wrote out.old out.new (pick defers (statement_word_with 0 (rv + 1) ∷ (word_with 9 1 ∷ [])) []) }
{
    if defers {
        out.put_all(&[statement_with(Op::Assign as u32, rv + 1), TRUE_WORD]);
    }
}

// return RV where a return is deferred.
#[tactic(auto, using(crate::proofs::Words::last_on, crate::proofs::Words::chosen_none))]
fn emit_last(rv: u32, defers: bool, out: &mut Output<'_>)
    requires { rv ≤ 1000 }
    ensures { Wrote out.old out.new (pick defers (statement_word_with 4 0 ∷ (word_with 10 rv ∷ [])) []) }
{
    if defers {
        out.put_all(&[RETURN_WORD, word_with(Kind::Variable as u32, rv)]);
    }
}

// The statements of the body: LIVE := true, the source's own, return RV. Answers how many they are.
fn emit_inner(procedure: Procedure<'_>, source: Source, out: &mut Output<'_>) -> u32
    requires described { Described procedure.program.image.now procedure.me source }
    requires typed { procedure.types.now ≡ (procedure_in procedure.program.image.now procedure.me).types }
    ensures words { Wrote out.old out.new (statements_words (body_for procedure.entry.program.image.now procedure.entry.me)) }
    ensures count { (result ≡ statement_count (body_for procedure.entry.program.image.now procedure.entry.me)) × (result ≤ 10000) }
{
    let numbers = number(source, narrow(procedure.types.len()));
    let opening = u32::from(source.defers); // a statement before the source's own, and one after them
    emit_live(numbers.rv, source.defers, out);
    let scope = Scope {
        pc: source.guarded,
        arm: source.parameters,
        first: numbers.first,
        rv: numbers.rv,
        pair: numbers.pair,
        word: numbers.word,
        boolean: numbers.boolean,
    };
    let first = Cursor {
        at: procedure.body(),
        n: opening,
        rc: false,
    };
    let c = Walk { procedure, scope }.emit_block(first, largest_level(0), out);
    emit_last(numbers.rv, source.defers, out);
    c.n + opening
}

// The body with its count, which is written once it is known.
fn emit_body(procedure: Procedure<'_>, source: Source, out: &mut Output<'_>)
    requires described { Described procedure.program.image.now procedure.me source }
    requires typed { procedure.types.now ≡ (procedure_in procedure.program.image.now procedure.me).types }
    ensures { Wrote out.old out.new (block_words (body_for procedure.entry.program.image.now procedure.entry.me)) }
{
    let start = out.place;
    out.put(0);
    let count = emit_inner(procedure, source, out);
    out.patch(start, block_with(count));
}

// The word of the procedure.
fn head_of(types: &[u32], source: Source) -> u32
    requires { (length types.now ≤ 255) × (source.parameters ≤ length types.now) × (source.parameters ≤ 8) × (source.levels ≤ 100) }
    ensures { result ≡ head_for source (length types.now) }
{
    let numbers = number(source, narrow(types.len()));
    let parameters = source.parameters + u32::from(source.guarded);
    procedure_with(parameters, numbers.count - parameters)
}

// A procedure of an image of form 0.
pub fn emit_procedure(procedure: Procedure<'_>, out: &mut Output<'_>)
    requires form { (image_in procedure.program.image.now).form ≡ 0 }
    requires typed { procedure.types.now ≡ (procedure_in procedure.program.image.now procedure.me).types }
    ensures { Wrote out.old out.new (procedure_words (procedure_for procedure.entry.program.image.now procedure.entry.me)) }
{
    let source = describe(procedure);
    out.put_all(&[head_of(procedure.types, source), source.result]);
    emit_types(procedure.types, source, out);
    emit_body(procedure, source, out);
}
