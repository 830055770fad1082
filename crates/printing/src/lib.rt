// The text that the printing program writes.
#![tactic(auto)]

ghost use Rattle.std.specs.Prelude.{◌≡◌, ◌++◌, ◌+◌, ◌*◌, ◌<◌, ◌≤◌, length, get_or, take, drop};
ghost use Rattle.std.proofs.Math.Seq.{paste};
ghost use Rattle.definitions.specs.Bytes.{words_of};
ghost use Rattle.compiler.specs.Kept.{count_of};
ghost use Rattle.printing.specs.Text.{hex_digit, word_line, listing, decimal_text, refusal_line, answer_text, printed};

use definitions::Compiled;

// The characters of a line: eight digits and the line's end.
const LINE: usize = 9;

// The character of a hexadecimal digit.
#[tactic(auto, using(crate::proofs::DigitRules::low_digit, crate::proofs::DigitRules::high_digit))]
fn digit(d: u32) -> u8
    requires { d < 16 }
    ensures { result ≡ hex_digit d }
{
    if d < 10 {
        return (48 + d) as u8;
    }
    (55 + d) as u8
}

// The line of a word.
fn line_of(w: u32) -> [u8; LINE]
    ensures { result ≡ word_line w }
{
    [
        digit(w / 268435456),
        digit(w / 16777216 % 16),
        digit(w / 1048576 % 16),
        digit(w / 65536 % 16),
        digit(w / 4096 % 16),
        digit(w / 256 % 16),
        digit(w / 16 % 16),
        digit(w % 16),
        b'\n',
    ]
}

// Characters go to the place `at` and those after it.
fn copy(characters: &[u8], text: &mut [u8], at: usize)
    requires { at + length characters.now ≤ length text.old }
    ensures { text.new ≡ paste text.old at characters.now (length characters.now) }
{
    text[at..at + characters.len()].copy_from_slice(characters);
}

// A line for each of the first n words.
fn put_listing(bytes: &[u8], n: usize, text: &mut [u8]) -> usize
    requires { (n ≤ 16384) × (4 * n ≤ length bytes.now) × (9 * n ≤ length text.old) }
    ensures { (result ≤ length text.new) × (take result text.new ≡ listing (take n (words_of bytes.now)))
        × (drop result text.new ≡ drop result text.old) }
{
    for j in 0..n {
        let line = line_of(words::word(bytes, j));
        copy(&line, text, LINE * j);
    }
    LINE * n
}

// A number in decimal behind the first `at` characters; answers where it ends.
fn put_number(n: u64, text: &mut [u8], at: usize) -> usize
    requires { at + 20 ≤ length text.old }
    ensures { (result ≤ at + 20) × (take result text.new ≡ take at text.old ++ decimal_text n)
        × (drop result text.new ≡ drop result text.old) × (at ≤ result) }
{
    let mut digits = [0u8; 20];
    let k = io::decimal(n, &mut digits);
    copy(&digits[..k], text, at);
    at + k
}

// The line of a refusal.
fn put_refusal(number: u32, place: usize, text: &mut [u8]) -> usize
    requires { 42 ≤ length text.old }
    ensures { (result ≤ length text.new) × (take result text.new ≡ refusal_line number place)
        × (drop result text.new ≡ drop result text.old) }
{
    let a = put_number(u64::from(number), text, 0);
    text[a] = b' ';
    let b = put_number(place as u64, text, a + 1);
    text[b] = b'\n';
    b + 1
}

// The text of an answer, with the output that the compiler left.
fn put_answer(answer: Compiled, out: &[u8], text: &mut [u8]) -> usize
    requires { (count_of answer ≤ 16384) × (4 * count_of answer ≤ length out.now) × (147456 ≤ length text.old) }
    ensures { (result ≤ length text.new) × (take result text.new ≡ answer_text answer (words_of out.now))
        × (drop result text.new ≡ drop result text.old) }
{
    match answer {
        Compiled::Refused(number, place) => put_refusal(number, place, text),
        Compiled::Written(count) => put_listing(out, count, text),
    }
}

// Compiles an image that is lent as bytes, and writes the text of the answer to the front of a slice; what stands behind it stays.
pub fn print_compiled(image: &[u8], text: &mut [u8; 147456]) -> usize
    ensures upper_bound { (result ≤ length text.new) × (result ≡ length (take result text.new)) }
    ensures text_after { (take result text.new ≡ printed image.now) × (drop result text.new ≡ drop result text.old) }
{
    let mut out = [0u8; 65536];
    let answer = lent_images::compile_bytes(image, &mut out);
    put_answer(answer, &out, text)
}
