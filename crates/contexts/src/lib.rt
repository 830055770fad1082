// The labels of expressions and the rc after statements, found by one walk over the words of a part that was read.
#![tactic(auto)]

ghost use Rattle.std.specs.Prelude.{◌≡◌, length, get_or};
ghost use Rattle.definitions.specs.Image.{type_secret, array_secret, op_of};
ghost use Rattle.definitions.specs.Reading.{read_expression, read_statement, read_block};
ghost use Rattle.laws.specs.Parses.{end_of};
ghost use Rattle.image_words.specs.Read.{ExpressionRead, PairRead, StatementRead, BlockRead};
ghost use Rattle.tables.specs.Table.{arrays_in, params_in};
ghost use Rattle.contexts.specs.Context.{seen, seen_two, passed, passed_block};

use image_words::kinds::Kind;
use image_words::lists::{element, wide};
use image_words::ops::Op;
use image_words::skipping::skip;
use image_words::{called, kinds, ops, payload, type_secret};
use tables::Table;
use tables::programs::Procedure;

// The words that a procedure's body is read by: its image with the table, the type words of its variables, its number. Not a Procedure, which
// asks that its image was read: secret_expression and rc_block may not ask more than that their part was.
#[derive(Clone, Copy)]
pub struct Body<'a> {
    pub image: &'a [u32],
    pub table: &'a Table,
    pub types: &'a [u32],
    pub me: u32,
}

impl<'a> Body<'a> {
    pub fn of(procedure: Procedure<'a>) -> Body<'a>
        ensures { (result.image.now ≡ procedure.entry.program.image.now) × (result.table.now ≡ procedure.entry.program.table.now)
            × (result.types.now ≡ procedure.entry.types.now) × (result.me ≡ procedure.entry.me) }
    {
        Body {
            image: procedure.program.image,
            table: procedure.program.table,
            types: procedure.types,
            me: procedure.me,
        }
    }
}

// Whether pc is secret, and rc.
#[derive(Clone, Copy)]
pub struct Context {
    pub pc: bool,
    pub rc: bool,
}

// Whether an expression is secret, and the place after it.
#[derive(Clone, Copy)]
pub struct Seen {
    pub secret: bool,
    pub next: usize,
}

// The rc after a statement or a block, and the place after it.
#[derive(Clone, Copy)]
pub struct Passed {
    pub rc: bool,
    pub next: usize,
}

// Whether a variable is secret, by the type words of its procedure's variables.
pub fn secret_variable(types: &[u32], x: u32) -> bool
    ensures { result ≡ type_secret (get_or types.now x 0) }
{
    type_secret(element(types, wide(x)))
}

// Whether an array is secret.
pub fn secret_array(table: &Table, a: u32) -> bool
    ensures { result ≡ array_secret (get_or (arrays_in table.now) a 0) }
{
    image_words::array_secret(tables::array(table, a))
}

// Whether the expression at a place is secret.
#[cycle(expressions)]
#[tactic(auto, using(crate::proofs::Sight::seeing, crate::proofs::Sight::sights))]
pub fn secret_expression(body: Body<'_>, at: usize, level: u32) -> Seen
    requires { ExpressionRead level body.image.now at }
    ensures { result ≡ seen body.entry.types.now (arrays_in body.entry.table.now) (read_expression level body.entry.image.now at) }
{
    let w = body.image[at];
    match kinds::of(w) {
        Kind::Constant | Kind::Boolean => Seen {
            secret: false,
            next: at + 1,
        },
        Kind::RawConstant => Seen {
            secret: false,
            next: at + 1 + 1,
        },
        Kind::Variable => Seen {
            secret: secret_variable(body.types, payload(w)),
            next: at + 1,
        },
        Kind::Cell => {
            let i = secret_expression(body, at + 1, level - 1);
            Seen {
                secret: secret_array(body.table, payload(w)) | i.secret,
                next: i.next,
            }
        }
        Kind::Unary => secret_expression(body, at + 1, level - 1),
        Kind::Binary => secret_two(body, at + 1, level - 1),
        Kind::Select => {
            let c = secret_expression(body, at + 1, level - 1);
            let v = secret_two(body, c.next, level - 1);
            Seen {
                secret: c.secret | v.secret,
                next: v.next,
            }
        }
    }
}

// Whether one of two expressions, one behind the other, is secret.
#[cycle(expressions)]
#[tactic(auto, using(crate::proofs::Sight::seeing, crate::proofs::Sight::sights))]
fn secret_two(body: Body<'_>, at: usize, level: u32) -> Seen
    requires { PairRead level body.image.now at }
    ensures { result ≡ seen_two body.entry.types.now (arrays_in body.entry.table.now) (read_expression level body.entry.image.now at)
        (read_expression level body.entry.image.now (end_of (read_expression level body.entry.image.now at))) }
{
    let e = secret_expression(body, at, level);
    let f = secret_expression(body, e.next, level);
    Seen {
        secret: e.secret | f.secret,
        next: f.next,
    }
}

// The rc after the statement at a place.
#[cycle(blocks)]
#[tactic(auto, using(crate::proofs::Passing::skips, crate::proofs::Passing::fine, crate::proofs::Passing::passes, crate::proofs::Passing::statements))]
pub fn rc_statement(body: Body<'_>, context: Context, at: usize, level: u32) -> Passed
    requires { StatementRead level (params_in body.table.now) body.me body.image.now at }
    ensures { result ≡ passed body.entry.types.now (arrays_in body.entry.table.now) context.pc context.rc
        (read_statement level (params_in body.entry.table.now) body.entry.me body.entry.image.now at) }
{
    let w = body.image[at];
    match ops::of(w) {
        Op::Assign => Passed {
            rc: context.rc,
            next: skip(body.image, at + 1, 1),
        },
        Op::Store => Passed {
            rc: context.rc,
            next: skip(body.image, at + 1, 2),
        },
        Op::If => rc_if(body, context, at, level),
        Op::For => {
            let inside = skip(body.image, at + 1, 2);
            rc_block(body, context, inside, level - 1)
        }
        Op::Return => Passed {
            rc: context.pc | context.rc,
            next: skip(body.image, at + 1, 1),
        },
        Op::Call => {
            let n = tables::parameters(body.table, called(w));
            Passed {
                rc: context.rc,
                next: skip(body.image, at + 1, wide(n)),
            }
        }
    }
}

// An if: both arms begin with the rc before it, and pc is secret in them if the condition is.
#[cycle(blocks)]
#[tactic(auto, using(crate::proofs::Passing::skips, crate::proofs::Passing::fine, crate::proofs::Passing::passes, crate::proofs::Passing::statements))]
fn rc_if(body: Body<'_>, context: Context, at: usize, level: u32) -> Passed
    requires { StatementRead level (params_in body.table.now) body.me body.image.now at × (op_of (get_or body.image.now at 0) ≡ 2) }
    ensures { result ≡ passed body.entry.types.now (arrays_in body.entry.table.now) context.pc context.rc
        (read_statement level (params_in body.entry.table.now) body.entry.me body.entry.image.now at) }
{
    let c = secret_expression(body, at + 1, level - 1);
    let arm = Context {
        pc: context.pc | c.secret,
        rc: context.rc,
    };
    let a = rc_block(body, arm, c.next, level - 1);
    let b = rc_block(body, arm, a.next, level - 1);
    Passed {
        rc: a.rc | b.rc,
        next: b.next,
    }
}

// The rc after the block at a place.
#[cycle(blocks)]
#[tactic(auto, using(crate::proofs::Passing::skips, crate::proofs::Passing::fine, crate::proofs::Passing::passes, crate::proofs::Passing::statements))]
pub fn rc_block(body: Body<'_>, context: Context, at: usize, level: u32) -> Passed
    requires { BlockRead level (params_in body.table.now) body.me body.image.now at }
    ensures { result ≡ passed_block body.entry.types.now (arrays_in body.entry.table.now) context.pc context.rc
        (read_block level (params_in body.entry.table.now) body.entry.me body.entry.image.now at) }
{
    let count = payload(body.image[at]);
    let mut r = context.rc;
    let mut a = at + 1;
    for _ in 0..count {
        let now = Context {
            pc: context.pc,
            rc: r,
        };
        let s = rc_statement(body, now, a, level - 1);
        r = s.rc;
        a = s.next;
    }
    Passed { rc: r, next: a }
}
