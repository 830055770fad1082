// The description of an image on lent bytes.
ghost use Rattle.std.specs.Prelude.{◌≡◌, ◌/◌, ◌≤◌, min, length, take};
ghost use Rattle.definitions.specs.Describing.{described};
ghost use Rattle.definitions.specs.Host.{describe_bytes};

use super::{hand_over, room_in};
use definitions::Compiled;
use words::images::{ENOUGH, LONGEST, SHORT, admissible, read_image};

// The most words of a description: no image has more than 16 arrays and 32 procedures.
const MOST: usize = 420;

// Describes into the first words of a slice, as many as there is room for.
fn describe_within(words: &[u32], whole: bool, res: &mut [u32], room: usize) -> Compiled
    requires { room ≤ length res.old }
    ensures { (result, take room res.new) ≡ described whole words.now (take room res.old) }
{
    describing::describe(words, whole, &mut res[..room])
}

// With an array for the image's words.
fn describe_with(image: &[u8], out: &mut [u8], words: &mut [u32]) -> Compiled
    requires { min (length image.now / 4) 16384 ≤ length words.old }
    ensures { (result, out.new) ≡ describe_bytes image.now out.old }
{
    let n = read_image(image, words);
    let whole = admissible(image);
    let room = room_in(out.len(), MOST);
    let mut result = [0u32; MOST];
    let answer = describe_within(&words[..n], whole, &mut result, room);
    hand_over(answer, &result, out)
}

// An image of at most N words.
fn describe_sized<const N: usize>(image: &[u8], out: &mut [u8]) -> Compiled
    requires { (min (length image.now / 4) 16384 ≤ N) × (N ≤ 16384) }
    ensures { (result, out.new) ≡ describe_bytes image.now out.old }
{
    let mut words = [0u32; N];
    describe_with(image, out, &mut words)
}

// An image of any length. Its words stand in a frame of their own, which a short image does not need.
#[inline(never)]
fn describe_long(image: &[u8], out: &mut [u8]) -> Compiled
    ensures { (result, out.new) ≡ describe_bytes image.now out.old }
{
    describe_sized::<LONGEST>(image, out)
}

// Describes an image that is lent as bytes into lent bytes. Those past the result stay. A longer image is cut, as by `check_bytes`.
pub fn describe_bytes(image: &[u8], out: &mut [u8]) -> Compiled
    ensures { (result, out.new) ≡ describe_bytes image.now out.old }
{
    if ENOUGH < image.len() {
        return describe_bytes(&image[..ENOUGH], out);
    }
    if image.len() <= 4 * SHORT {
        return describe_sized::<SHORT>(image, out);
    }
    describe_long(image, out)
}
