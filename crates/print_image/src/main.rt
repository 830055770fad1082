// Prints the compiled image of the one on standard input, or the refusal.
#![tactic(auto)]

ghost use Rattle.std.specs.Prelude.{◌≤◌, length};

use std::io;
use std::io::{Read, Write};

// So many bytes of an image tell the text: one word more than any form admits.
const ENOUGH: usize = 65540;

// So many characters has the longest text.
const TEXT: usize = 147456;

// Reads until the slice is full or the input ends, as one that cannot be read does; answers how many bytes came.
fn fill<R: Read>(input: &mut R, bytes: &mut [u8]) -> usize
    ensures { result ≤ length bytes.new }
{
    let mut filled = 0;
    for _ in 0..bytes.len() {
        let n = input.read(&mut bytes[filled..]).unwrap_or(0);
        if n == 0 {
            break;
        }
        filled += n;
    }
    filled
}

// Reads to the end. A proved loop has to end: no run uses up its turns.
fn drop_rest<R: Read>(input: &mut R) {
    let mut rest = [0u8; ENOUGH];
    for _ in 0..u64::MAX {
        if fill(input, &mut rest) == 0 {
            break;
        }
    }
}

fn main(rt: HostRuntime) {
    let mut image = [0u8; ENOUGH];
    let mut text = [0u8; TEXT];
    let mut input = rt.reader();
    let length = fill(&mut input, &mut image);
    drop_rest(&mut input);
    let end = printing::print_compiled(&image[..length], &mut text);
    // where the output takes no more, nothing is left to say
    io::writer(&rt).write_all(&text[..end]).unwrap_or(());
}
