// The statements that hold no block: assign, store, return, call. The cursor stands at the statement's word.
ghost use Rattle.std.specs.Prelude.{◌≡◌, true, get_or};
ghost use Rattle.laws.specs.Parses.{ok};
ghost use Rattle.image_words.specs.Read.{arguments_at};
ghost use Rattle.tables.specs.Table.{arrays_in, params_in};
ghost use Rattle.tables.specs.Looking.{Listed, procedure_in};
ghost use Rattle.labels.specs.Enclosing.{bounds_in};
ghost use Rattle.labels.specs.Walk.{argued_all};
ghost use Rattle.labels.specs.Places.{StatementHere, op_here, statement_at};

use super::enclosing::Enclosing;
use super::expressions::{label_expression, note_index};
use super::{Around, Cursor, Scope, Walk, Walked};
use contexts::{Context, secret_array, secret_variable};
use image_words::{called, result, target, type_secret};
use reasons::Reason;
use tables::programs::Program;

#[tactic(auto, using(crate::proofs::LeafRules::fine, crate::proofs::LeafRules::leaves))]
pub fn label_assign(
    scope: Scope<'_>,
    enclosing: &Enclosing,
    context: Context,
    cursor: Cursor,
    level: u32,
) -> Walked
    requires { StatementHere scope cursor level × (op_here scope cursor ≡ 0) }
    ensures { result ≡ statement_at scope.entry (bounds_in enclosing.now.loops) context cursor level }
{
    let secret = context.pc | context.rc;
    let around = Around {
        body: scope.body,
        enclosing,
        secret,
    };
    let operand = Cursor {
        at: cursor.at + 1,
        ..cursor
    };
    let value = label_expression(around, operand, level - 1);
    let variable = secret_variable(scope.body.types, target(scope.body.image[cursor.at]));
    let leaks = (value.secret | secret) & !variable;
    let judged = value.cursor.noted(leaks, Reason::Flow, cursor.at);
    Walked {
        rc: context.rc,
        cursor: judged,
    }
}

#[tactic(auto, using(crate::proofs::LeafRules::fine, crate::proofs::LeafRules::leaves))]
pub fn label_store(
    scope: Scope<'_>,
    enclosing: &Enclosing,
    context: Context,
    cursor: Cursor,
    level: u32,
) -> Walked
    requires { StatementHere scope cursor level × (op_here scope cursor ≡ 1) }
    ensures { result ≡ statement_at scope.entry (bounds_in enclosing.now.loops) context cursor level }
{
    let secret = context.pc | context.rc;
    let around = Around {
        body: scope.body,
        enclosing,
        secret,
    };
    let operands = Cursor {
        at: cursor.at + 1,
        ..cursor
    };
    let a = target(scope.body.image[cursor.at]);
    let index = label_expression(around, operands, level - 1);
    let behind = note_index(around, a, operands.at, index);
    let stored = label_expression(around, behind, level - 1);
    let array = secret_array(scope.body.table, a);
    let leaks = (stored.secret | secret) & !array;
    let judged = stored.cursor.noted(leaks, Reason::Flow, cursor.at);
    Walked {
        rc: context.rc,
        cursor: judged,
    }
}

#[tactic(auto, using(crate::proofs::LeafRules::fine, crate::proofs::LeafRules::leaves))]
pub fn label_return(
    scope: Scope<'_>,
    enclosing: &Enclosing,
    context: Context,
    cursor: Cursor,
    level: u32,
) -> Walked
    requires { StatementHere scope cursor level × (op_here scope cursor ≡ 4) }
    ensures { result ≡ statement_at scope.entry (bounds_in enclosing.now.loops) context cursor level }
{
    let secret = context.pc | context.rc;
    let around = Around {
        body: scope.body,
        enclosing,
        secret,
    };
    let operand = Cursor {
        at: cursor.at + 1,
        ..cursor
    };
    let returned = label_expression(around, operand, level - 1);
    let given = type_secret(scope.result);
    let leaks = (returned.secret | secret) & !given;
    let judged = returned.cursor.noted(leaks, Reason::Flow, cursor.at);
    Walked {
        rc: secret,
        cursor: judged,
    }
}

// The arguments of a call of procedure `f`. Only their values count, not the context.
#[tactic(auto, using(crate::proofs::LeafRules::arguments))]
fn label_arguments(around: Around<'_>, f: u32, first: Cursor, level: u32) -> Cursor
    requires { Listed around.body.image.now around.body.table.now f
        × (ok (arguments_at (get_or (params_in around.body.table.now) f 0) level around.body.image.now first.at) ≡ true) }
    ensures { result ≡ argued_all around.entry.body.types.now (arrays_in around.entry.body.table.now)
        (bounds_in around.entry.enclosing.now.loops) around.entry.secret (procedure_in around.entry.body.image.now f).types 0 first.best
        (arguments_at (get_or (params_in around.entry.body.table.now) f 0) level around.entry.body.image.now first.at) }
{
    let program = Program {
        image: around.body.image,
        table: around.body.table,
    };
    let mut cursor = first;
    for k in 0..program.parameters(f) {
        let parameter = type_secret(program.variable_type(f, k));
        let argument = label_expression(around, cursor, level);
        let leaks = argument.secret & !parameter;
        cursor = argument.cursor.noted(leaks, Reason::Flow, cursor.at);
    }
    cursor
}

// A call: what it gives back, whom it calls, its arguments.
#[tactic(auto, using(crate::proofs::LeafRules::fine, crate::proofs::LeafRules::leaves))]
pub fn label_call(
    walk: Walk<'_>,
    enclosing: &Enclosing,
    context: Context,
    cursor: Cursor,
    level: u32,
) -> Walked
    requires { StatementHere walk.scope cursor level × (op_here walk.scope cursor ≡ 5) }
    ensures { result ≡ statement_at walk.entry.scope (bounds_in enclosing.now.loops) context cursor level }
{
    let body = walk.scope.body;
    let program = Program {
        image: body.image,
        table: body.table,
    };
    let w = body.image[cursor.at];
    let first = cursor.at + 1;
    let f = called(w);
    let secret = context.pc | context.rc;
    let given = type_secret(program.result_type(f));
    let variable = secret_variable(body.types, result(w));
    let flow = cursor.noted((given | secret) & !variable, Reason::Flow, cursor.at);
    let guarded = program.is_guarded(f);
    let mode = flow.noted(secret & !guarded, Reason::OpenCall, cursor.at);
    let around = Around {
        body,
        enclosing,
        secret,
    };
    let arguments = Cursor { at: first, ..mode };
    let behind = label_arguments(around, f, arguments, level - 1);
    Walked {
        rc: context.rc,
        cursor: behind,
    }
}
