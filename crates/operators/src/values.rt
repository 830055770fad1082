// The values of operators, as definitions/specs/Arithmetic.antt has them.
ghost use Rattle.std.specs.Prelude.{◌≡◌};
ghost use Rattle.definitions.specs.Arithmetic as arithmetic;

// The product modulo 2^32.
pub fn multiply(a: u32, b: u32) -> u32
    ensures { result ≡ arithmetic.multiply a b }
{
    a.wrapping_mul(b)
}

#[tactic(auto, using(crate::proofs::Operations::rotate_is))]
pub fn rotate_left(a: u32, n: u32) -> u32
    ensures { result ≡ arithmetic.rotate_left a n }
{
    a.rotate_left(n)
}

// The machine stops before a division by 0. An answer there spares `apply` a condition on its callers.
pub fn quotient(a: u32, b: u32) -> u32
    ensures { result ≡ arithmetic.quotient a b }
{
    a.checked_div(b).unwrap_or(0)
}

pub fn remainder(a: u32, b: u32) -> u32
    ensures { result ≡ arithmetic.remainder a b }
{
    a.checked_rem(b).unwrap_or(a)
}

pub fn equal(a: u32, b: u32) -> u32
    ensures { result ≡ arithmetic.equal a b }
{
    u32::from(a == b)
}

pub fn less(a: u32, b: u32) -> u32
    ensures { result ≡ arithmetic.less a b }
{
    u32::from(a < b)
}

pub fn truth(a: u32) -> u32
    ensures { result ≡ arithmetic.truth a }
{
    u32::from(a != 0)
}

pub fn logical_and(a: u32, b: u32) -> u32
    ensures { result ≡ arithmetic.logical_and a b }
{
    u32::from(a != 0 && b != 0)
}

pub fn logical_or(a: u32, b: u32) -> u32
    ensures { result ≡ arithmetic.logical_or a b }
{
    u32::from(a != 0 || b != 0)
}
