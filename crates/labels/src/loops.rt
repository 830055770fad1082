// The bounds of a for.
ghost use Rattle.std.specs.Prelude.{◌≡◌};
ghost use Rattle.std.specs.Option.{unwrap_or};
ghost use Rattle.definitions.specs.Labels.{unbounded};
ghost use Rattle.definitions.specs.Reading.{read_expression};
ghost use Rattle.laws.specs.Parses.{end_of};
ghost use Rattle.image_words.specs.Read.{ExpressionRead, PairRead};
ghost use Rattle.tables.specs.Table.{arrays_in};
ghost use Rattle.labels.specs.Enclosing.{bounds_in};
ghost use Rattle.labels.specs.Operand.{inside_at};
ghost use Rattle.labels.specs.Walk.{bounding, limited};

use super::expressions::label_expression;
use super::operands::constant_at;
use super::{Around, Cursor, Labelled, Limited};
use definitions::ConstantLoop;
use reasons::Reason;

// One of a for's bounds.
#[tactic(auto, using(crate::proofs::LoopRules::bound_labelled))]
fn label_bound(around: Around<'_>, cursor: Cursor, level: u32) -> Labelled
    requires { ExpressionRead level around.body.image.now cursor.at }
    ensures { result ≡ bounding around.entry.body.types.now (arrays_in around.entry.body.table.now)
        (bounds_in around.entry.enclosing.now.loops) around.entry.secret cursor.best
        (read_expression level around.entry.body.image.now cursor.at) }
{
    let place = cursor.at;
    let e = label_expression(around, cursor, level);
    let constant = constant_at(around.body.image, place).is_some();
    let public = e.cursor.noted(e.secret, Reason::SecretWherePublic, place);
    let judged = public.noted(around.secret & !constant, Reason::Unbounded, place);
    Labelled {
        secret: e.secret,
        cursor: judged,
    }
}

// "a for passes from up to, not including, to": the for that is around its variable in its block, by the places of its bounds.
#[tactic(auto, using(crate::proofs::LoopRules::insides))]
pub fn loop_inside(image: &[u32], from: usize, to: usize) -> Option<ConstantLoop>
    ensures { unwrap_or result unbounded ≡ inside_at image.now from to }
{
    let lower = constant_at(image, from)?;
    let upper = constant_at(image, to)?;
    Some(ConstantLoop {
        passes: upper.saturating_sub(lower),
        upper,
    })
}

// Both bounds of a for.
#[tactic(auto, using(crate::proofs::LoopRules::to_fine, crate::proofs::LoopRules::bounds_labelled))]
pub fn label_bounds(around: Around<'_>, cursor: Cursor, level: u32) -> Limited
    requires { PairRead level around.body.image.now cursor.at }
    ensures { (unwrap_or result.inside unbounded, result.cursor) ≡ limited around.entry.body.types.now
        (arrays_in around.entry.body.table.now) (bounds_in around.entry.enclosing.now.loops) around.entry.secret cursor.best
        (read_expression level around.entry.body.image.now cursor.at)
        (read_expression level around.entry.body.image.now (end_of (read_expression level around.entry.body.image.now cursor.at))) }
{
    let from = label_bound(around, cursor, level);
    let to = label_bound(around, from.cursor, level);
    let inside = loop_inside(around.body.image, cursor.at, from.cursor.at);
    Limited {
        inside,
        cursor: to.cursor,
    }
}
