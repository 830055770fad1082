// The statements that hold blocks, and blocks: the context that they stand in, and the lowest of their faults.
ghost use Rattle.std.specs.Prelude.{◌≡◌};
ghost use Rattle.image_words.specs.Read.{BlockRead};
ghost use Rattle.tables.specs.Table.{params_in};
ghost use Rattle.labels.specs.Enclosing.{bounds_in};
ghost use Rattle.labels.specs.Places.{StatementHere, op_here, statement_at, block_at};

use super::enclosing::Enclosing;
use super::expressions::label_expression;
use super::leaves::{label_assign, label_call, label_return, label_store};
use super::loops::label_bounds;
use super::{Around, Cursor, Walk, Walked};
use contexts::{Context, rc_block};
use image_words::ops::Op;
use image_words::{ops, payload, target};
use reasons::Reason;

// A block: its statements in order, each with the rc that the one before it leaves.
#[cycle(blocks)]
#[tactic(auto, using(crate::proofs::StatementRules::fine, crate::proofs::StatementRules::walks, crate::proofs::StatementRules::blocks))]
pub fn label_block(
    walk: Walk<'_>,
    enclosing: &mut Enclosing,
    context: Context,
    cursor: Cursor,
    level: u32,
) -> Walked
    requires { BlockRead level (params_in walk.scope.body.table.now) walk.scope.body.me walk.scope.body.image.now cursor.at }
    ensures { (result ≡ block_at walk.entry.scope (bounds_in enclosing.old.loops) context cursor level) × (bounds_in enclosing.new.loops ≡ bounds_in enclosing.old.loops) }
{
    let count = payload(walk.scope.body.image[cursor.at]);
    let mut r = context.rc;
    let mut a = Cursor {
        at: cursor.at + 1,
        ..cursor
    };
    for _ in 0..count {
        let now = Context {
            pc: context.pc,
            rc: r,
        };
        let s = label_statement(walk, enclosing, now, a, level - 1);
        r = s.rc;
        a = s.cursor;
    }
    Walked { rc: r, cursor: a }
}

// A statement, by its op.
#[cycle(blocks)]
#[tactic(auto, using(crate::proofs::StatementRules::fine, crate::proofs::StatementRules::walks, crate::proofs::StatementRules::blocks))]
fn label_statement(
    walk: Walk<'_>,
    enclosing: &mut Enclosing,
    context: Context,
    cursor: Cursor,
    level: u32,
) -> Walked
    requires { StatementHere walk.scope cursor level }
    ensures { (result ≡ statement_at walk.entry.scope (bounds_in enclosing.old.loops) context cursor level) × (bounds_in enclosing.new.loops ≡ bounds_in enclosing.old.loops) }
{
    match ops::of(walk.scope.body.image[cursor.at]) {
        Op::Assign => label_assign(walk.scope, enclosing, context, cursor, level),
        Op::Store => label_store(walk.scope, enclosing, context, cursor, level),
        Op::If => label_if(walk, enclosing, context, cursor, level),
        Op::For => label_for(walk, enclosing, context, cursor, level),
        Op::Return => label_return(walk.scope, enclosing, context, cursor, level),
        Op::Call => label_call(walk, enclosing, context, cursor, level),
    }
}

// An if: both arms begin with the rc before it, and pc is secret in them if the condition is. Form 1 has no secret branch.
#[cycle(blocks)]
#[tactic(auto, using(crate::proofs::StatementRules::fine, crate::proofs::StatementRules::walks, crate::proofs::StatementRules::blocks))]
fn label_if(
    walk: Walk<'_>,
    enclosing: &mut Enclosing,
    context: Context,
    cursor: Cursor,
    level: u32,
) -> Walked
    requires { StatementHere walk.scope cursor level × (op_here walk.scope cursor ≡ 2) }
    ensures { (result ≡ statement_at walk.entry.scope (bounds_in enclosing.old.loops) context cursor level) × (bounds_in enclosing.new.loops ≡ bounds_in enclosing.old.loops) }
{
    let around = Around {
        body: walk.scope.body,
        enclosing: &*enclosing,
        secret: context.pc | context.rc,
    };
    let condition = Cursor {
        at: cursor.at + 1,
        ..cursor
    };
    let c = label_expression(around, condition, level - 1);
    let judged = c.cursor.noted(
        (walk.scope.form == 1) & c.secret,
        Reason::SecretBranch,
        cursor.at,
    );
    let arm = Context {
        pc: context.pc | c.secret,
        rc: context.rc,
    };
    let a = label_block(walk, enclosing, arm, judged, level - 1);
    let b = label_block(walk, enclosing, arm, a.cursor, level - 1);
    Walked {
        rc: a.rc | b.rc,
        cursor: b.cursor,
    }
}

// A for: its bounds use the rc before it, its block is checked with the rc that it ends with when begun from that rc.
#[cycle(blocks)]
#[tactic(auto, using(crate::proofs::StatementRules::fine, crate::proofs::StatementRules::walks, crate::proofs::StatementRules::blocks))]
fn label_for(
    walk: Walk<'_>,
    enclosing: &mut Enclosing,
    context: Context,
    cursor: Cursor,
    level: u32,
) -> Walked
    requires { StatementHere walk.scope cursor level × (op_here walk.scope cursor ≡ 3) }
    ensures { (result ≡ statement_at walk.entry.scope (bounds_in enclosing.old.loops) context cursor level) × (bounds_in enclosing.new.loops ≡ bounds_in enclosing.old.loops) }
{
    let x = target(walk.scope.body.image[cursor.at]);
    let around = Around {
        body: walk.scope.body,
        enclosing: &*enclosing,
        secret: context.pc | context.rc,
    };
    let bounds = Cursor {
        at: cursor.at + 1,
        ..cursor
    };
    let t = label_bounds(around, bounds, level - 1);
    let after = rc_block(walk.scope.body, context, t.cursor.at, level - 1);
    let now = Context {
        pc: context.pc,
        rc: after.rc,
    };
    let outside = enclosing.put(x, t.inside);
    let b = label_block(walk, enclosing, now, t.cursor, level - 1);
    enclosing.put(x, outside);
    Walked {
        rc: after.rc,
        cursor: b.cursor,
    }
}
