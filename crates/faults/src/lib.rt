// The lowest fault so far, as both passes of the checker carry it. The laws that they share stand in specs/.
#![tactic(auto)]

ghost use Rattle.std.specs.Prelude.{◌≡◌, ◌&&◌, ◌||◌, eqb, ltb, ◌≤◌};
ghost use Rattle.definitions.specs.Faults.{least, fault_if};

use definitions::Fault;

// Whether a fault with this number and place goes before `best`: the lower place, or on one word the lower number.
fn goes_before(best: Fault, number: u32, place: usize) -> bool
    ensures { result ≡ (eqb best.number 0 || (ltb place best.place || eqb place best.place && ltb number best.number)) }
{
    best.number == 0 || (place, number) < (best.place, best.number)
}

// The lowest of `best` and the fault of a rule, where it is broken. Numbers of faults are not 0.
#[tactic(auto, unfolding(definitions::specs::Faults::least))]
pub fn note(best: Fault, broken: bool, number: u32, place: usize) -> Fault
    requires { 1 ≤ number }
    ensures { result ≡ least best (fault_if broken number place) }
{
    if broken && goes_before(best, number, place) {
        return Fault { number, place };
    }
    best
}
