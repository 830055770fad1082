// Expressions of the source image copied into the compiled one, their variables renumbered.
#![tactic(auto)]

ghost use Rattle.std.specs.Prelude.{◌≡◌, true, ◌+◌, ◌≤◌, ◌<◌, length, get_or};
ghost use Rattle.definitions.specs.Image.{kind_of};
ghost use Rattle.definitions.specs.Reading.{read_expression};
ghost use Rattle.definitions.specs.Compiling.{renamed};
ghost use Rattle.laws.specs.Parses.{ok, end_of};
ghost use Rattle.image_words.specs.Read.{ExpressionRead, PairRead, arguments_at};
ghost use Rattle.writer.specs.Writing.{write, SameBuffer};
ghost use Rattle.copying.specs.Copy.{spot, copied, copied_two, copied_arguments};

use image_words::kinds::{self, Kind};
use image_words::made::{RAW_WORD, SELECT_WORD, word_with};
use image_words::payload;
use writer::Output;

// What is copied from: the words of the source image, and the first variable of those that move up by one.
#[derive(Clone, Copy)]
pub struct Source<'a> {
    pub image: &'a [u32],
    pub first: u32,
}

// Each copy answers the place after what it read.
impl Source<'_> {
    // A variable's number in the compiled procedure.
    #[tactic(auto, using(crate::proofs::Rules::renumber_low, crate::proofs::Rules::renumber_high))]
    pub fn renumber(self, x: u32) -> u32
        requires { x < 268435456 }
        ensures { (result ≡ renamed self.entry.first x) × (result ≤ x + 1) }
    {
        if x < self.first { x } else { x + 1 }
    }

    // Copies one word as it is.
    fn copy_word(self, at: usize, out: &mut Output<'_>) -> usize
        requires { at < length self.image.now }
        ensures { ((result, (out.new.place, out.new.words.now)) ≡ spot (at + 1) (write out.old.place out.old.words.now (get_or self.entry.image.now at 0)))
            × (result ≡ at + 1) × (result ≤ length self.entry.image.now) × SameBuffer out.old out.new }
    {
        out.put(self.image[at]);
        at + 1
    }

    // Copies the expression at a place.
    #[tactic(auto, using(image_words::specs::Parts::kind_there, image_words::specs::Parts::read_raw))]
    #[cycle(copies)]
    pub fn copy_expression(self, at: usize, level: u32, out: &mut Output<'_>) -> usize
        requires { ExpressionRead level self.image.now at }
        ensures { ((result, (out.new.place, out.new.words.now)) ≡ copied self.entry.first out.old.place out.old.words.now (read_expression level self.entry.image.now at))
            × (at < result) × (result ≤ length self.entry.image.now) × SameBuffer out.old out.new }
    {
        let word = self.image[at];
        match kinds::of(word) {
            Kind::Constant | Kind::Boolean => self.copy_word(at, out),
            Kind::RawConstant => {
                out.put(RAW_WORD);
                self.copy_word(at + 1, out)
            }
            Kind::Variable => {
                let y = self.renumber(payload(word));
                out.put(word_with(Kind::Variable as u32, y));
                at + 1
            }
            Kind::Cell | Kind::Unary => {
                out.put(word);
                self.copy_expression(at + 1, level - 1, out)
            }
            Kind::Binary => {
                out.put(word);
                self.copy_two(at + 1, level - 1, out)
            }
            Kind::Select => self.copy_select(at, level, out),
        }
    }

    // A select: its condition, then its two values.
    #[cycle(copies)]
    fn copy_select(self, at: usize, level: u32, out: &mut Output<'_>) -> usize
        requires { ExpressionRead level self.image.now at × (kind_of (get_or self.image.now at 0) ≡ 14) }
        ensures { ((result, (out.new.place, out.new.words.now)) ≡ copied self.entry.first out.old.place out.old.words.now (read_expression level self.entry.image.now at))
            × (at < result) × (result ≤ length self.entry.image.now) × SameBuffer out.old out.new }
    {
        out.put(SELECT_WORD);
        let values = self.copy_expression(at + 1, level - 1, out);
        self.copy_two(values, level - 1, out)
    }

    // Copies two expressions, one behind the other.
    #[cycle(copies)]
    pub fn copy_two(self, at: usize, level: u32, out: &mut Output<'_>) -> usize
        requires { PairRead level self.image.now at }
        ensures { ((result, (out.new.place, out.new.words.now)) ≡ copied_two self.entry.first out.old.place out.old.words.now (read_expression level self.entry.image.now at)
            (read_expression level self.entry.image.now (end_of (read_expression level self.entry.image.now at))))
            × (at < result) × (result ≤ length self.entry.image.now) × SameBuffer out.old out.new }
    {
        let second = self.copy_expression(at, level, out);
        self.copy_expression(second, level, out)
    }

    // Copies a number of expressions in a row: the values of a call.
    #[tactic(auto, using(crate::proofs::Arguments::arguments_ready, crate::proofs::Arguments::arguments_begin, crate::proofs::Arguments::arguments_done, crate::proofs::Arguments::arguments_more, crate::proofs::Arguments::arguments_again, crate::proofs::Arguments::argument_read))]
    pub fn copy_arguments(self, at: usize, count: u32, level: u32, out: &mut Output<'_>) -> usize
        requires { (at ≤ length self.image.now) × (ok (arguments_at count level self.image.now at) ≡ true) }
        ensures { ((result, (out.new.place, out.new.words.now)) ≡ copied_arguments self.entry.first out.old.place out.old.words.now (arguments_at count level self.entry.image.now at))
            × (at ≤ result) × (result ≤ length self.entry.image.now) × SameBuffer out.old out.new }
    {
        let mut next = at;
        for _ in 0..count {
            next = self.copy_expression(next, level, out);
        }
        next
    }
}
