// The answers in the bytes that a C host lends for them: seven words, most significant byte first, one layout for every answer.
#![tactic(auto)]

ghost use Rattle.std.specs.Prelude.{◌≡◌, ◌<◌};
ghost use Rattle.definitions.specs.Host.{layout, answer_words, checked_words, compiled_words, compared_words, answer_bytes};
ghost use Rattle.results.specs.Named.{answer_place, checked_place, compiled_place};
ghost use Rattle.answers.specs.Layouts.{words_of};

use definitions::{Answer, Checked, Compared, Compiled};
use words::write_words;

// How many words an answer has, and how many bytes.
const ANSWER_WORDS: usize = 7;

const ANSWER_BYTES: usize = 28;

// How many values a word has.
const WORD_VALUES: usize = 4294967296;

// How a request ended, by the number that the first word of its answer has.
#[derive(Clone, Copy)]
enum Status {
    Done = 0,
    Stopped = 1,
    Refused = 2,
}

// What the words of an answer say. The count takes two words, the high one first.
#[derive(Clone, Copy)]
struct Layout {
    status: Status,
    number: u32,
    place: usize,
    result: u32,
    steps: u32,
    count: usize,
}

// An answer that says nothing more than that all was done.
const DONE: Layout = Layout {
    status: Status::Done,
    number: 0,
    place: 0,
    result: 0,
    steps: 0,
    count: 0,
};

impl Layout {
    fn refused(number: u32, place: usize) -> Layout
        ensures { (words_of result ≡ layout 2 number place 0 0 0) × (result.place ≡ place) }
    {
        Layout {
            status: Status::Refused,
            number,
            place,
            ..DONE
        }
    }

    // A slice that is too short for the seven words stays as it is.
    #[tactic(auto, using(crate::proofs::Rules::layout_short, crate::proofs::Rules::layout_put))]
    fn put(self, slice: &mut [u8])
        requires { self.place < 4294967296 }
        ensures { slice.new ≡ answer_bytes slice.old (words_of self) }
    {
        if slice.len() < ANSWER_BYTES {
            return;
        }
        let place = self.place as u32; // it fits: no bit is lost
        let high = (self.count / WORD_VALUES) as u32;
        let low = (self.count % WORD_VALUES) as u32;
        let words = [
            self.status as u32,
            self.number,
            place,
            self.result,
            self.steps,
            high,
            low,
        ];
        write_words(&words, slice, ANSWER_WORDS);
    }
}

impl From<Answer> for Layout {
    ghost from_gives = { λ answer l. (words_of l ≡ answer_words answer) × (l.place ≡ answer_place answer) };

    #[tactic(auto, unfolding(definitions::specs::Host::answer_words))]
    fn from(answer: Answer) -> Layout {
        match answer {
            Answer::Done(result, steps, count) => Layout {
                result,
                steps,
                count,
                ..DONE
            },
            Answer::Stopped(number, place, steps, count) => Layout {
                status: Status::Stopped,
                number,
                place,
                steps,
                count,
                ..DONE
            },
            Answer::Refused(number, place) => Layout::refused(number, place),
        }
    }
}

impl From<Checked> for Layout {
    ghost from_gives = { λ answer l. (words_of l ≡ checked_words answer) × (l.place ≡ checked_place answer) };

    #[tactic(auto, unfolding(definitions::specs::Host::checked_words))]
    fn from(answer: Checked) -> Layout {
        match answer {
            Checked::Accepted => DONE,
            Checked::Refused(number, place) => Layout::refused(number, place),
        }
    }
}

impl From<Compiled> for Layout {
    ghost from_gives = { λ answer l. (words_of l ≡ compiled_words answer) × (l.place ≡ compiled_place answer) };

    #[tactic(auto, unfolding(definitions::specs::Host::compiled_words))]
    fn from(answer: Compiled) -> Layout {
        match answer {
            Compiled::Written(count) => Layout { count, ..DONE },
            Compiled::Refused(number, place) => Layout::refused(number, place),
        }
    }
}

// A comparison is never refused: its result is 1 where they agree.
impl From<Compared> for Layout {
    ghost from_gives = { λ answer l. (words_of l ≡ compared_words answer) × (l.place ≡ 0) };

    #[tactic(auto, unfolding(definitions::specs::Host::compared_words))]
    fn from(answer: Compared) -> Layout {
        match answer {
            Compared::Agree(count) => Layout {
                result: 1,
                count,
                ..DONE
            },
            Compared::Part(count) => Layout { count, ..DONE },
        }
    }
}

// The machine's answer to a request.
pub fn put_answer(slice: &mut [u8], answer: Answer)
    requires { answer_place answer < 4294967296 }
    ensures { slice.new ≡ answer_bytes slice.old (answer_words answer) }
{
    let request = Layout::from(answer);
    request.put(slice);
}

// The checker's answer.
pub fn put_checked(slice: &mut [u8], answer: Checked)
    requires { checked_place answer < 4294967296 }
    ensures { slice.new ≡ answer_bytes slice.old (checked_words answer) }
{
    let verdict = Layout::from(answer);
    verdict.put(slice);
}

// The compiler's answer.
pub fn put_compiled(slice: &mut [u8], answer: Compiled)
    requires { compiled_place answer < 4294967296 }
    ensures { slice.new ≡ answer_bytes slice.old (compiled_words answer) }
{
    let compilation = Layout::from(answer);
    compilation.put(slice);
}

// The answer of a comparison.
pub fn put_compared(slice: &mut [u8], answer: Compared)
    ensures { slice.new ≡ answer_bytes slice.old (compared_words answer) }
{
    let comparison = Layout::from(answer);
    comparison.put(slice);
}
