// One word of an image, and what is asked of it.
ghost use Rattle.std.specs.Prelude.{◌≡◌, ◌<◌, true, length, OnOk};
ghost use Rattle.reasons.specs.Numbers.{reason_number};
ghost use Rattle.reader.specs.Answers.{word_at, ensured};

use definitions::Fault;
use reasons::Reason;

// The word at a place: "3 [length] ends early".
#[tactic(auto, unfolding(crate::specs::Answers::word_at))]
pub fn word(image: &[u32], at: usize) -> Result<u32, Fault>
    ensures value { result ≡ word_at image.now at }
    ensures inside { OnOk result (at < length image.now) }
{
    image
        .get(at)
        .copied()
        .ok_or(Reason::EndsEarly.at(image.len()))
}

// The refusal for a reason, unless the test holds.
pub fn ensure(holds: bool, reason: Reason, place: usize) -> Result<(), Fault>
    ensures value { result ≡ ensured holds (reason_number reason) place }
    ensures test { OnOk result (holds ≡ true) }
{
    if holds { Ok(()) } else { Err(reason.at(place)) }
}
