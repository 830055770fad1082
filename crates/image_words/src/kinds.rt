// The kinds of expressions.
ghost use Rattle.std.specs.Prelude.{◌≡◌, ◌<◌, ◌&&◌, leb, false, IfSome, IfNone};
ghost use Rattle.definitions.specs.Image.{kind_of};
ghost use Rattle.image_words.specs.Kinds.{kind_number};

use super::kind;

#[derive(Clone, Copy, PartialEq, Eq)]
pub enum Kind {
    Constant = 7,
    RawConstant = 8,
    Boolean = 9,
    Variable = 10,
    Cell = 11,
    Unary = 12,
    Binary = 13,
    Select = 14,
}

// The kind of an expression by its first word.
pub fn of(w: u32) -> Kind
    requires { (6 < kind_of w) × (kind_of w < 15) }
    ensures { kind_of w ≡ kind_number result }
{
    match kind(w) {
        7 => Kind::Constant,
        8 => Kind::RawConstant,
        9 => Kind::Boolean,
        10 => Kind::Variable,
        11 => Kind::Cell,
        12 => Kind::Unary,
        13 => Kind::Binary,
        _ => Kind::Select,
    }
}

// The kind of an expression, if the word begins one.
pub fn checked(w: u32) -> Option<Kind>
    ensures some { IfSome result (λ k. kind_of w ≡ kind_number k) }
    ensures none { IfNone result (leb 7 (kind_of w) && leb (kind_of w) 14 ≡ false) }
{
    match kind(w) {
        7..=14 => Some(of(w)),
        _ => None,
    }
}

pub const VARIABLE: u32 = 10;
