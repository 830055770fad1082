// The trace of a run: entries of two words each, written straight into the lent bytes, since their number has no bound.
#![tactic(auto)]

use image_words::made::word_with;
use reasons::Reason;

// What an entry is of; its number stands in the entry's first word.
#[derive(Clone, Copy, PartialEq, Eq)]
pub enum Entry {
    Branch = 1,
    LoopFrom = 2,
    LoopTo = 3,
    Index = 4,
    Dividend = 5,
    Divisor = 6,
    Called = 7,
    Returned = 8,
    ShiftCount = 9,
}

// A stop: why, and the place of the word where.
#[derive(Clone, Copy, PartialEq, Eq)]
pub struct Stop {
    pub reason: Reason,
    pub place: usize,
}

// The lent bytes, and how many of them hold entries.
#[derive(Drop)]
pub struct Trace<'a> {
    pub bytes: &'a mut [u8],
    pub used: usize,
}

impl Entry {
    ghost use Rattle.std.specs.Prelude.{◌≡◌};
    ghost use Rattle.tracing.specs.Answers.{entry_number};

    pub fn number(self) -> u32
        ensures { result ≡ entry_number self }
    {
        self as u32
    }
}

impl Trace<'_> {
    ghost use Rattle.std.specs.Prelude.{◌≡◌, ◌<◌};
    ghost use Rattle.definitions.specs.Running.{emit};
    ghost use Rattle.tracing.specs.Log.{byte_trace};
    ghost use Rattle.tracing.specs.Answers.{SameBytes, entry_number, evaluation, logged};

    // Records an entry of a kind and hands its value on; a stop where there is no room for two words.
    #[tactic(auto, using(crate::proofs::Rules::note_short, crate::proofs::Rules::note_spent, crate::proofs::Rules::note_kept))]
    pub fn note(&mut self, kind: u32, place: usize, value: u32) -> Result<u32, Stop>
        requires { (kind < 15) × (place < 268435456) }
        ensures answer { evaluation result (logged self.new)
            ≡ emit byte_trace kind place value (logged self.old) }
        ensures same { SameBytes self.old self.new }
    {
        let n = self.bytes.len();
        let full = Stop {
            reason: Reason::TraceFull,
            place,
        };
        if n < 8 {
            return Err(full);
        }
        // A sum on the left could pass the largest number.
        if n - 8 < self.used {
            return Err(full);
        }
        words::put_word(self.bytes, self.used, word_with(kind, place as u32));
        words::put_word(self.bytes, self.used + 4, value);
        self.used += 8;
        Ok(value)
    }

    // Records an entry by its name, and hands its value on; a stop where there is no room for two words.
    #[tactic(auto, using(crate::proofs::Rules::entry_small))]
    pub fn record(&mut self, entry: Entry, place: usize, value: u32) -> Result<u32, Stop>
        requires { place < 268435456 }
        ensures answer { evaluation result (logged self.new)
            ≡ emit byte_trace (entry_number entry) place value (logged self.old) }
        ensures same { SameBytes self.old self.new }
    {
        self.note(entry.number(), place, value)
    }
}
