// The writer of the compiled image: each word goes to the next place of the lent buffer; words past its end are only counted.
#![tactic(auto)]

ghost use Rattle.std.specs.Prelude.{◌≡◌, set};
ghost use Rattle.writer.specs.Writing.{write, SameBuffer, Wrote};

// One past the largest compiled image: places stop there, so that no caller has to bound them.
const LAST_PLACE: usize = 16385;

// The image as far as it is written: the lent buffer, and the place of the next word.
#[derive(Drop)]
pub struct Output<'a> {
    pub words: &'a mut [u32],
    pub place: usize,
}

// Stores a word, where the buffer has its place. By an index: with get_mut the proof that None changes nothing did not close.
#[tactic(auto, using(crate::proofs::Rules::stored_past))]
fn store(words: &mut [u32], place: usize, word: u32)
    ensures { words.new ≡ set words.old place word }
{
    if place < words.len() {
        words[place] = word;
    }
}

impl Output<'_> {
    // Writes one word. It never refuses: what does not fit is told from the place at the end.
    #[tactic(auto, using(crate::proofs::Rules::put_past, crate::proofs::Rules::put_within))]
    pub fn put(&mut self, word: u32)
        ensures { ((self.new.place, self.new.words.now) ≡ write self.old.place self.old.words.now word) × SameBuffer self.old self.new }
    {
        if self.place < LAST_PLACE {
            store(self.words, self.place, word);
            self.place += 1;
        }
    }

    // Writes words one after the other.
    #[tactic(auto, using(crate::proofs::Rules::all_begin, crate::proofs::Rules::all_more, crate::proofs::Rules::all_done))]
    pub fn put_all(&mut self, words: &[u32])
        ensures { Wrote self.old self.new words.now }
    {
        for &each in words {
            self.put(each);
        }
    }

    // Writes a word again, at a place that was passed before its value was known; the next word goes where it went before.
    #[tactic(auto, using(crate::proofs::Rules::patch_on))]
    pub fn patch(&mut self, place: usize, word: u32)
        ensures same_buffer { SameBuffer self.old self.new }
        ensures place { self.new.place ≡ self.old.place }
        ensures words { self.new.words.now ≡ (write place self.old.words.now word).1 }
    {
        let next = self.place;
        self.place = place;
        self.put(word);
        self.place = next;
    }
}
