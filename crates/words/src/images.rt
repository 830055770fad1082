// A lent image's bytes as words, as far as any form admits them.
ghost use Rattle.std.specs.Prelude.{◌≡◌, ◌&&◌, ◌/◌, ◌%◌, ◌≤◌, min, eqb, leb, length, take, drop};
ghost use Rattle.definitions.specs.Bytes.{words_of};
ghost use Rattle.definitions.specs.Host.{whole_words};

use super::read_words;

// The most words of an image, in any form.
pub const LONGEST: usize = 16384;

// The most words of a short image: arrays of its size spare the time to fill larger ones.
pub const SHORT: usize = 512;

// The most words of a small routine.
pub const SMALL: usize = 64;

// So many bytes of an image tell its answer: one word more than any form admits.
pub const ENOUGH: usize = 4 * LONGEST + 4;

// The first 16,384 words of an image go to the front, and how many there are: a longer image is refused by its header or its length alone.
#[tactic(auto, using(crate::proofs::ImageRules::read_all))]
pub fn read_image(image: &[u8], words: &mut [u32]) -> usize
    requires { min (length image.now / 4) 16384 ≤ length words.old }
    ensures { (result ≡ min (length image.now / 4) 16384) × (result ≤ length words.new) × (take result words.new ≡ take 16384 (words_of image.now))
        × (drop result words.new ≡ drop result words.old) }
{
    let count = (image.len() / 4).min(LONGEST);
    read_words(image, words, count);
    count
}

// Whether an image is whole words, and no more of them than any form admits.
#[tactic(auto, using(crate::proofs::ImageRules::admitted))]
pub fn admissible(image: &[u8]) -> bool
    ensures { result ≡ (whole_words image.now && leb (length (words_of image.now)) 16384) }
{
    image.len() % 4 == 0 && image.len() / 4 <= LONGEST
}
