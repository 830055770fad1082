// The checker, the compiler and the description of an image on lent bytes.
#![tactic(auto)]

ghost use Rattle.std.specs.Prelude.{◌≡◌, ◌++◌, ◌*◌, ◌/◌, ◌≤◌, min, length, take, drop, replicate};
ghost use Rattle.definitions.specs.Bytes.{bytes_of};
ghost use Rattle.definitions.specs.Checking.{checked};
ghost use Rattle.definitions.specs.Host.{check_bytes, compile_bytes};
ghost use Rattle.compiler.specs.Compile.{compiled_on};
ghost use Rattle.compiler.specs.Kept.{count_of};
ghost use Rattle.lent_images.specs.Counts.{attempt};

use definitions::{Checked, Compiled};
use reasons::Reason;
use tables::SIZE;
use words::images::{ENOUGH, LONGEST, SHORT, admissible, read_image};

pub mod descriptions; // what an image has

// The checker's answer alone, without the tables.
fn check_words(image: &[u32], whole: bool) -> Checked
    ensures { result ≡ checked whole image.now }
{
    let mut table = [0u32; SIZE];
    let mut ends = [0u16; 0];
    checker::check_with(image, whole, &mut table, &mut ends)
}

// The image's words go into a lent slice that has room for them.
fn check_into(image: &[u8], words: &mut [u32]) -> Checked
    requires { min (length image.now / 4) 16384 ≤ length words.old }
    ensures { result ≡ check_bytes image.now }
{
    let n = read_image(image, words);
    let whole = admissible(image);
    check_words(&words[..n], whole)
}

// An image of at most N words.
fn check_sized<const N: usize>(image: &[u8]) -> Checked
    requires { (min (length image.now / 4) 16384 ≤ N) × (N ≤ 16384) }
    ensures { result ≡ check_bytes image.now }
{
    let mut words = [0u32; N];
    check_into(image, &mut words)
}

// An image of any length. Its words stand in a frame of their own, which a short image does not need.
#[inline(never)]
fn check_long(image: &[u8]) -> Checked
    ensures { result ≡ check_bytes image.now }
{
    check_sized::<LONGEST>(image)
}

// Checks an image that is lent as bytes. A longer one is cut by a call of itself: a function that calls itself takes no large frame into its own,
// so that a small image needs no room for a long one's words.
pub fn check_bytes(image: &[u8]) -> Checked
    ensures { result ≡ check_bytes image.now }
{
    if ENOUGH < image.len() {
        return check_bytes(&image[..ENOUGH]);
    }
    if image.len() <= 4 * SHORT {
        return check_sized::<SHORT>(image);
    }
    check_long(image)
}

// Compiles into the first words of a slice, as many as there is room for.
fn compile_within(words: &[u32], whole: bool, res: &mut [u32], room: usize) -> Compiled
    requires { room ≤ length res.old }
    ensures { (result, take room res.new) ≡ compiled_on whole words.now (take room res.old) }
{
    compiler::images::compile(words, whole, &mut res[..room])
}

// The words that a slice of bytes has room for, as far as there are words for them.
fn room_in(bytes: usize, most: usize) -> usize
    ensures { result ≡ min (bytes / 4) most }
{
    (bytes / 4).min(most)
}

// The words that were written go into the lent bytes; after a refusal these stay as they were.
fn hand_over(answer: Compiled, res: &[u32], out: &mut [u8]) -> Compiled
    requires { (count_of answer ≤ length res.now) × (4 * count_of answer ≤ length out.old) }
    ensures { (result ≡ answer) × (out.new ≡ bytes_of (take (count_of answer) res.now) ++ drop (4 * count_of answer) out.old) }
{
    match answer {
        Compiled::Written(count) => words::write_words(res, out, count),
        Compiled::Refused(..) => {}
    }
    answer
}

// With arrays for the image's words and for the result, which may be shorter than the output.
fn compile_with(image: &[u8], out: &mut [u8], words: &mut [u32], res: &mut [u32]) -> Compiled
    requires { min (length image.now / 4) 16384 ≤ length words.old }
    ensures { (result, out.new) ≡ attempt image.now out.old res.old }
{
    let n = read_image(image, words);
    let whole = admissible(image);
    let room = room_in(out.len(), res.len());
    let answer = compile_within(&words[..n], whole, res, room);
    hand_over(answer, res, out)
}

// The most words of a short result.
const SHORT_RESULT: usize = 1024;

// An image of at most N words, compiled into at most M.
fn compile_sized<const N: usize, const M: usize>(image: &[u8], out: &mut [u8]) -> Compiled
    requires { (min (length image.now / 4) 16384 ≤ N) × (N ≤ 16384) × (M ≤ 16384) }
    ensures { (result, out.new) ≡ attempt image.now out.old (replicate M 0) }
{
    let mut words = [0u32; N];
    let mut result = [0u32; M];
    compile_with(image, out, &mut words, &mut result)
}

// An image of any length. Its arrays stand in a frame of their own, which a short image does not need.
#[inline(never)]
fn compile_long(image: &[u8], out: &mut [u8]) -> Compiled
    ensures { (result, out.new) ≡ compile_bytes image.now out.old }
{
    compile_sized::<LONGEST, LONGEST>(image, out)
}

// Compiles an image that is lent as bytes into lent bytes. Those past the result stay. A longer image is cut as above. A short one is compiled
// again with long arrays where its result was too long for the short one, but not for the output.
pub fn compile_bytes(image: &[u8], out: &mut [u8]) -> Compiled
    ensures { (result, out.new) ≡ compile_bytes image.now out.old }
{
    if ENOUGH < image.len() {
        return compile_bytes(&image[..ENOUGH], out);
    }
    if 4 * SHORT < image.len() {
        return compile_long(image, out);
    }
    if out.len() / 4 <= SHORT_RESULT {
        return compile_sized::<SHORT, SHORT_RESULT>(image, out);
    }
    match compile_sized::<SHORT, SHORT_RESULT>(image, out) {
        Compiled::Written(count) => Compiled::Written(count),
        Compiled::Refused(number, place) => {
            if number == Reason::OutputShort.number() {
                return compile_long(image, out);
            }
            Compiled::Refused(number, place)
        }
    }
}
