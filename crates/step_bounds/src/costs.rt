// Costs in steps. A sum stops growing at the first number that no answer can hold: it is above the limit then, and stays so unless it is
// multiplied by no pass.
ghost use Rattle.std.specs.Prelude.{◌≡◌, ◌+◌, ◌*◌, ◌≤◌};
ghost use Rattle.step_bounds.specs.Counting.{capped};

// The first number above 4,294,967,295.
pub const CEILING: u64 = 4294967296;

// A cost, or the ceiling.
fn cap(n: u64) -> u64
    ensures { (result ≡ capped n) × (result ≤ CEILING) }
{
    n.min(CEILING)
}

// Two costs together.
pub fn sum(a: u64, b: u64) -> u64
    ensures { (result ≡ capped (a + b)) × (result ≤ CEILING) }
{
    cap(a.saturating_add(b))
}

// The passes of a for: each has a step of its own.
pub fn repeated(passes: u32, body: u64) -> u64
    ensures { (result ≡ capped (passes * (1 + body))) × (result ≤ CEILING) }
{
    let each = body.saturating_add(1);
    let all = u64::from(passes).saturating_mul(each);
    cap(all)
}
