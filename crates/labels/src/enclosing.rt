// The enclosing for over each variable, where its bounds are constants.
ghost use Rattle.std.specs.Prelude.{◌≡◌, get_or, set, replicate};
ghost use Rattle.std.specs.Option.{unwrap_or};
ghost use Rattle.definitions.specs.Labels.{unbounded};
ghost use Rattle.labels.specs.Enclosing.{bounds_in};

use definitions::ConstantLoop;
use image_words::lists::wide;

// The numbers that a variable can have.
const VARIABLES: usize = 256;

// What stands for no for: passes and bound above any length.
const UNBOUNDED: ConstantLoop = ConstantLoop {
    passes: u32::MAX,
    upper: u32::MAX,
};

// (Not of `Option<ConstantLoop>`: each procedure fills the array, and the tags would be written one by one.)
#[derive(Clone, Copy)]
pub struct Enclosing {
    pub loops: [ConstantLoop; VARIABLES],
}

impl Enclosing {
    // No for stands around the body of a procedure.
    #[tactic(auto, using(crate::specs::Enclosing::bounds_none))]
    pub fn none() -> Enclosing
        ensures { bounds_in result.loops ≡ replicate 256 unbounded }
    {
        Enclosing {
            loops: [UNBOUNDED; VARIABLES],
        }
    }

    // The for around a variable.
    #[tactic(auto, using(crate::proofs::EnclosingRules::loop_there, crate::proofs::EnclosingRules::loop_past))]
    pub fn around(&self, x: u32) -> ConstantLoop
        ensures { result ≡ get_or (bounds_in self.now.loops) x unbounded }
    {
        self.loops.get(wide(x)).copied().unwrap_or(UNBOUNDED)
    }

    // Puts a for around a variable, or none, and tells what was around it. (Not by `get_mut`, whose contract tells the length of the list and no
    // element.)
    #[tactic(auto, using(crate::proofs::EnclosingRules::loop_there, crate::proofs::EnclosingRules::loop_past, crate::proofs::EnclosingRules::loop_put, crate::proofs::EnclosingRules::loop_kept))]
    pub fn put(&mut self, x: u32, inside: Option<ConstantLoop>) -> Option<ConstantLoop>
        ensures before { unwrap_or result unbounded ≡ get_or (bounds_in self.old.loops) x unbounded }
        ensures after { bounds_in self.new.loops ≡ set (bounds_in self.old.loops) x (unwrap_or inside unbounded) }
    {
        let i = wide(x);
        let loops: &mut [ConstantLoop] = &mut self.loops;
        if i < loops.len() {
            let before = loops[i];
            loops[i] = inside.unwrap_or(UNBOUNDED);
            return Some(before);
        }
        None
    }
}
