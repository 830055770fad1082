// Which variables a procedure needs beside its own, found by one walk over its body: RV and LIVE, a pair for each nesting level of secret
// ifs, a temporary for results of each sort.
#![tactic(auto)]

ghost use Rattle.std.specs.Prelude.{◌≡◌, ◌<◌, get_or, length};
ghost use Rattle.definitions.specs.Image.{op_of};
ghost use Rattle.definitions.specs.Reading.{read_expression, read_statement, read_block};
ghost use Rattle.laws.specs.ImageIn.{image_in, procedures_in};
ghost use Rattle.image_words.specs.Read.{ExpressionRead, StatementRead, BlockRead};
ghost use Rattle.tables.specs.Table.{arrays_in, params_in};
ghost use Rattle.contexts.specs.Context.{seen, passed, passed_block};
ghost use Rattle.locals.specs.Walk.{after_call, behind, found, found_block};

use contexts::{Body, Context, Passed, Seen, rc_block, rc_statement, secret_expression};
use image_words::ops::{self, Op};
use image_words::skipping::skip;
use image_words::{called, payload, type_sort};
use operators::{BOOLEAN, WORD};
use tables::programs::{Procedure, Program};

// How far the walk has come, the place and rc; and what it has found: the nesting levels of secret ifs, and whether a call in a secret
// context has a word, and one a boolean, for its result.
#[derive(Clone, Copy)]
pub struct Found {
    pub at: usize,
    pub rc: bool,
    pub levels: u32,
    pub words: bool,
    pub booleans: bool,
}

// A call of procedure f, behind which the walk is already.
#[tactic(auto, using(crate::proofs::Rules::call_found))]
fn find_call(program: Program<'_>, pc: bool, behind: Found, f: u32) -> Found
    requires { f < length (image_in program.image.now).procedures }
    ensures { result ≡ after_call (procedures_in program.entry.image.now) pc behind f }
{
    let sort = type_sort(program.result_type(f));
    let secret = pc | behind.rc;
    Found {
        words: behind.words | (secret & (sort == WORD)),
        booleans: behind.booleans | (secret & (sort == BOOLEAN)),
        ..behind
    }
}

// A statement of which only the rc matters: the walk goes behind it.
fn pass(procedure: Procedure<'_>, pc: bool, before: Found, level: u32) -> Found
    requires { StatementRead level (params_in procedure.program.table.now) procedure.me procedure.program.image.now before.at }
    ensures { result ≡ behind before (passed procedure.entry.types.now (arrays_in procedure.entry.program.table.now) pc before.rc
        (read_statement level (params_in procedure.entry.program.table.now) procedure.entry.me procedure.entry.program.image.now before.at)) }
{
    let context = Context { pc, rc: before.rc };
    let s = rc_statement(Body::of(procedure), context, before.at, level);
    Found {
        at: s.next,
        rc: s.rc,
        ..before
    }
}

// Whether the condition at a place is secret.
fn condition(procedure: Procedure<'_>, at: usize, level: u32) -> Seen
    requires { ExpressionRead level procedure.program.image.now at }
    ensures { result ≡ seen procedure.entry.types.now (arrays_in procedure.entry.program.table.now)
        (read_expression level procedure.entry.program.image.now at) }
{
    secret_expression(Body::of(procedure), at, level)
}

// The rc after one pass of the body of a for.
fn repeated(procedure: Procedure<'_>, context: Context, at: usize, level: u32) -> Passed
    requires { BlockRead level (params_in procedure.program.table.now) procedure.me procedure.program.image.now at }
    ensures { result ≡ passed_block procedure.entry.types.now (arrays_in procedure.entry.program.table.now) context.pc context.rc
        (read_block level (params_in procedure.entry.program.table.now) procedure.entry.me procedure.entry.program.image.now at) }
{
    rc_block(Body::of(procedure), context, at, level)
}

// A statement.
#[cycle(blocks)]
fn find_statement(procedure: Procedure<'_>, pc: bool, before: Found, level: u32) -> Found
    requires { StatementRead level (params_in procedure.program.table.now) procedure.me procedure.program.image.now before.at }
    ensures { result ≡ found (procedures_in procedure.entry.program.image.now) (arrays_in procedure.entry.program.table.now) procedure.entry.types.now pc before
        (read_statement level (params_in procedure.entry.program.table.now) procedure.entry.me procedure.entry.program.image.now before.at) }
{
    let w = procedure.program.image[before.at];
    match ops::of(w) {
        Op::If => find_if(procedure, pc, before, level),
        Op::For => find_for(procedure, pc, before, level),
        Op::Call => {
            let behind = pass(procedure, pc, before, level);
            find_call(procedure.program, pc, behind, called(w))
        }
        Op::Assign | Op::Store | Op::Return => pass(procedure, pc, before, level),
    }
}

// An if: one level more than its arms have, if it is secret.
#[cycle(blocks)]
fn find_if(procedure: Procedure<'_>, pc: bool, before: Found, level: u32) -> Found
    requires { StatementRead level (params_in procedure.program.table.now) procedure.me procedure.program.image.now before.at
        × (op_of (get_or procedure.program.image.now before.at 0) ≡ 2) }
    ensures { result ≡ found (procedures_in procedure.entry.program.image.now) (arrays_in procedure.entry.program.table.now) procedure.entry.types.now pc before
        (read_statement level (params_in procedure.entry.program.table.now) procedure.entry.me procedure.entry.program.image.now before.at) }
{
    let c = condition(procedure, before.at + 1, level - 1);
    let arm = pc | c.secret;
    let begun = Found {
        at: c.next,
        levels: 0, // those of the arms are counted apart from those before
        ..before
    };
    let x = find_block(procedure, arm, begun, level - 1);
    let between = Found { rc: before.rc, ..x };
    let y = find_block(procedure, arm, between, level - 1);
    Found {
        rc: x.rc | y.rc,
        levels: before.levels.max(u32::from(c.secret) + y.levels),
        ..y
    }
}

// A for: its body begins with the rc that it ends with when begun from the rc before it.
#[cycle(blocks)]
fn find_for(procedure: Procedure<'_>, pc: bool, before: Found, level: u32) -> Found
    requires { StatementRead level (params_in procedure.program.table.now) procedure.me procedure.program.image.now before.at
        × (op_of (get_or procedure.program.image.now before.at 0) ≡ 3) }
    ensures { result ≡ found (procedures_in procedure.entry.program.image.now) (arrays_in procedure.entry.program.table.now) procedure.entry.types.now pc before
        (read_statement level (params_in procedure.entry.program.table.now) procedure.entry.me procedure.entry.program.image.now before.at) }
{
    let n = skip(procedure.program.image, before.at + 1, 2);
    let context = Context { pc, rc: before.rc };
    let s = repeated(procedure, context, n, level - 1);
    let behind = Found {
        at: n,
        rc: s.rc,
        ..before
    };
    let x = find_block(procedure, pc, behind, level - 1);
    Found { rc: s.rc, ..x }
}

// The statements of a block.
#[cycle(blocks)]
pub fn find_block(procedure: Procedure<'_>, pc: bool, before: Found, level: u32) -> Found
    requires { BlockRead level (params_in procedure.program.table.now) procedure.me procedure.program.image.now before.at }
    ensures { result ≡ found_block (procedures_in procedure.entry.program.image.now) (arrays_in procedure.entry.program.table.now) procedure.entry.types.now pc before
        (read_block level (params_in procedure.entry.program.table.now) procedure.entry.me procedure.entry.program.image.now before.at) }
{
    let count = payload(procedure.program.image[before.at]);
    let mut c = Found {
        at: before.at + 1,
        ..before
    };
    for _ in 0..count {
        c = find_statement(procedure, pc, c, level - 1);
    }
    c
}
