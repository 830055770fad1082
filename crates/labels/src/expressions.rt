// The label of an expression, and the lowest of its faults.
ghost use Rattle.std.specs.Prelude.{◌≡◌, ◌<◌, length};
ghost use Rattle.definitions.specs.Reading.{read_expression};
ghost use Rattle.laws.specs.Parses.{end_of};
ghost use Rattle.image_words.specs.Read.{PairRead};
ghost use Rattle.tables.specs.Table.{arrays_in};
ghost use Rattle.operators.specs.Numbers.{publics_number};
ghost use Rattle.labels.specs.Cursors.{ending};
ghost use Rattle.labels.specs.Enclosing.{bounds_in};
ghost use Rattle.labels.specs.Walk.{labelled_two, index_noted, operator_noted};
ghost use Rattle.labels.specs.Places.{ExpressionHere, kind_here, expression_at};

use super::operands::{bounded_at, constant_at};
use super::{Around, Cursor, Labelled};
use contexts::{secret_array, secret_variable};
use image_words::kinds::Kind;
use image_words::{array_length, kinds, payload};
use operators::{Operator, PublicOperands};
use reasons::Reason;

// The faults of an index at a place, behind which the cursor stands: it has to be public, and bounded by the array's length in a secret context.
#[tactic(auto, using(crate::proofs::OperandRules::index_noted_lem))]
pub fn note_index(around: Around<'_>, a: u32, at: usize, index: Labelled) -> Cursor
    requires { at < length around.body.image.now }
    ensures { result ≡ ending index.cursor.at (index_noted around.entry.body.image.now (arrays_in around.entry.body.table.now)
        (bounds_in around.entry.enclosing.now.loops) around.entry.secret a at index.secret index.cursor.best) }
{
    let public = index
        .cursor
        .noted(index.secret, Reason::SecretWherePublic, at);
    let size = array_length(tables::array(around.body.table, a));
    let bounded = bounded_at(around.body.image, around.enclosing, size, at);
    public.noted(around.secret & !bounded, Reason::Unbounded, at)
}

// The faults of an operator's operands, of which the left one stands at a place: which have to be public, and what a divisor has to be in
// a secret context.
#[tactic(auto, using(crate::proofs::OperandRules::operator_noted_lem))]
fn note_operator(
    around: Around<'_>,
    publics: PublicOperands,
    at: usize,
    left: Labelled,
    right: Labelled,
) -> Cursor
    requires { left.cursor.at < length around.body.image.now }
    ensures { result ≡ ending right.cursor.at (operator_noted around.entry.body.image.now (publics_number publics) around.entry.secret at left.secret
        left.cursor.at right.secret right.cursor.best) }
{
    let place = left.cursor.at;
    let divisor = constant_at(around.body.image, place).unwrap_or(0);
    let both = publics == PublicOperands::Both;
    let some = publics != PublicOperands::Neither;
    let first = right
        .cursor
        .noted(both & left.secret, Reason::SecretWherePublic, at);
    let second = first.noted(some & right.secret, Reason::SecretWherePublic, place);
    let unbounded = around.secret & (both & (divisor == 0));
    second.noted(unbounded, Reason::Unbounded, place)
}

// An expression, by the kind of its first word.
#[cycle(parts)]
#[tactic(auto, using(crate::proofs::ExpressionRules::fine, crate::proofs::ExpressionRules::labels))]
pub fn label_expression(around: Around<'_>, cursor: Cursor, level: u32) -> Labelled
    requires { ExpressionHere around cursor level }
    ensures { result ≡ expression_at around.entry cursor level }
{
    let w = around.body.image[cursor.at];
    let operand = Cursor {
        at: cursor.at + 1,
        ..cursor
    };
    match kinds::of(w) {
        Kind::Constant | Kind::Boolean => Labelled {
            secret: false,
            cursor: operand,
        },
        Kind::RawConstant => Labelled {
            secret: false,
            cursor: Cursor {
                at: cursor.at + 1 + 1,
                ..cursor
            },
        },
        Kind::Variable => Labelled {
            secret: secret_variable(around.body.types, payload(w)),
            cursor: operand,
        },
        Kind::Cell => label_cell(around, cursor, level),
        Kind::Unary => label_expression(around, operand, level - 1),
        Kind::Binary => label_binary(around, cursor, level),
        Kind::Select => label_select(around, cursor, level),
    }
}

#[cycle(parts)]
#[tactic(auto, using(crate::proofs::ExpressionRules::fine, crate::proofs::ExpressionRules::labels))]
fn label_cell(around: Around<'_>, cursor: Cursor, level: u32) -> Labelled
    requires { ExpressionHere around cursor level × (kind_here around cursor ≡ 11) }
    ensures { result ≡ expression_at around.entry cursor level }
{
    let a = payload(around.body.image[cursor.at]);
    let operand = Cursor {
        at: cursor.at + 1,
        ..cursor
    };
    let i = label_expression(around, operand, level - 1);
    let judged = note_index(around, a, operand.at, i);
    Labelled {
        secret: secret_array(around.body.table, a) | i.secret,
        cursor: judged,
    }
}

#[cycle(parts)]
#[tactic(auto, using(crate::proofs::ExpressionRules::fine, crate::proofs::ExpressionRules::labels))]
fn label_binary(around: Around<'_>, cursor: Cursor, level: u32) -> Labelled
    requires { ExpressionHere around cursor level × (kind_here around cursor ≡ 13) }
    ensures { result ≡ expression_at around.entry cursor level }
{
    let operator = Operator::of(payload(around.body.image[cursor.at]));
    let operands = Cursor {
        at: cursor.at + 1,
        ..cursor
    };
    let e = label_expression(around, operands, level - 1);
    let f = label_expression(around, e.cursor, level - 1);
    let judged = note_operator(around, operator.publics(), operands.at, e, f);
    Labelled {
        secret: e.secret | f.secret,
        cursor: judged,
    }
}

#[cycle(parts)]
#[tactic(auto, using(crate::proofs::ExpressionRules::fine, crate::proofs::ExpressionRules::labels))]
fn label_select(around: Around<'_>, cursor: Cursor, level: u32) -> Labelled
    requires { ExpressionHere around cursor level × (kind_here around cursor ≡ 14) }
    ensures { result ≡ expression_at around.entry cursor level }
{
    let condition = Cursor {
        at: cursor.at + 1,
        ..cursor
    };
    let c = label_expression(around, condition, level - 1);
    let v = label_two(around, c.cursor, level - 1);
    Labelled {
        secret: c.secret | v.secret,
        cursor: v.cursor,
    }
}

// Two expressions, one behind the other.
#[cycle(parts)]
#[tactic(auto, using(crate::proofs::ExpressionRules::fine, crate::proofs::ExpressionRules::labels))]
fn label_two(around: Around<'_>, cursor: Cursor, level: u32) -> Labelled
    requires { PairRead level around.body.image.now cursor.at }
    ensures { result ≡ labelled_two around.entry.body.types.now (arrays_in around.entry.body.table.now)
        (bounds_in around.entry.enclosing.now.loops) around.entry.secret cursor.best
        (read_expression level around.entry.body.image.now cursor.at)
        (read_expression level around.entry.body.image.now (end_of (read_expression level around.entry.body.image.now cursor.at))) }
{
    let e = label_expression(around, cursor, level);
    let f = label_expression(around, e.cursor, level);
    Labelled {
        secret: e.secret | f.secret,
        cursor: f.cursor,
    }
}
