// What the fors of a procedure make of each of its variables.
ghost use Rattle.std.specs.Prelude.{◌≡◌, ℕ, List, map, get_or, set, length, replicate};
ghost use Rattle.sorts.specs.Numbers.{mark_number};

use std::marker::Model;

// More than a procedure has variables.
const VARIABLES: usize = 256;

#[derive(Clone, Copy, PartialEq, Eq)]
pub enum Mark {
    // no for names it
    Ordinary,
    // a loop variable outside the blocks of its fors
    Outside,
    // a loop variable inside the block of one
    Inside,
}

// A mark for each number that a variable can have.
#[derive(Drop)]
pub struct Marks {
    of: [Mark; VARIABLES],
}

impl Model for Marks {
    ghost Value = { List ℕ };

    ghost view = { λ m. map mark_number m.of };

    ghost invariant = { λ m. length m.of ≡ 256 };
}

impl Marks {
    pub fn new() -> Marks
        ensures { result ≡ replicate 256 0 }
    {
        Marks {
            of: [Mark::Ordinary; VARIABLES],
        }
    }

    // The mark of a variable; what names none is ordinary.
    pub fn get(&self, x: u32) -> Mark
        ensures { mark_number result ≡ get_or self.now x 0 }
    {
        self.of.get(x as usize).copied().unwrap_or(Mark::Ordinary)
    }

    // Not by `get_mut`, whose contract tells no element where there is none at the index, as `lists::put` says.
    #[tactic(auto, using(crate::proofs::MarkTable::put_within, crate::proofs::MarkTable::put_past))]
    pub fn put(&mut self, x: u32, mark: Mark)
        ensures { self.new ≡ set self.old x (mark_number mark) }
    {
        let i = x as usize;
        if i < VARIABLES {
            self.of[i] = mark;
        }
    }
}
