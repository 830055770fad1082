// Words in slices of bytes: four bytes a word, most significant first.
#![tactic(auto)]

ghost use Rattle.std.specs.Prelude.{◌≡◌, ◌++◌, ◌+◌, ◌*◌, ◌<◌, ◌≤◌, length, take, drop};
ghost use Rattle.std.proofs.lemmas.List.Edits.{sets};
ghost use Rattle.definitions.specs.Bytes.{word_at, words_of, word4, bytes_of};

pub mod images; // the words of a lent image

// The word at index i, counted in words.
pub fn word(b: &[u8], i: usize) -> u32
    requires { 4 * i + 4 ≤ length b.now }
    ensures { result ≡ word_at b.now i }
{
    let at = 4 * i;
    u32::from_be_bytes([b[at], b[at + 1], b[at + 2], b[at + 3]])
}

// The first n words of b go to the front of out; the words behind them stay.
pub fn read_words(b: &[u8], out: &mut [u32], n: usize)
    requires { (4 * n ≤ length b.now) × (n ≤ length out.old) }
    ensures { (take n out.new ≡ take n (words_of b.now)) × (drop n out.new ≡ drop n out.old) }
{
    for i in 0..n {
        out[i] = word(b, i);
    }
}

// The first n words of one slice go to the front of another; the words behind them stay.
pub fn copy_words(from: &[u32], out: &mut [u32], n: usize)
    requires { (n ≤ length from.now) × (n ≤ length out.old) }
    ensures { (take n out.new ≡ take n from.now) × (drop n out.new ≡ drop n out.old) }
{
    out[..n].copy_from_slice(&from[..n]);
}

// The four bytes of w go to the byte offset at and the three after it.
#[tactic(auto, using(crate::proofs::Steps::stores))]
pub fn put_word(out: &mut [u8], at: usize, w: u32)
    requires { at + 4 ≤ length out.old }
    ensures { out.new ≡ sets out.old at (word4 w) }
{
    out[at..at + 4].copy_from_slice(&w.to_be_bytes());
}

// The first n words of ws go to the front of out; the bytes behind them stay.
#[tactic(auto, using(crate::proofs::Steps::write_more), unfolding(definitions::specs::Bytes::bytes_of))]
pub fn write_words(ws: &[u32], out: &mut [u8], n: usize)
    requires { (n ≤ length ws.now) × (4 * n ≤ length out.old) }
    ensures { out.new ≡ bytes_of (take n ws.now) ++ drop (4 * n) out.old }
{
    for j in 0..n {
        put_word(out, 4 * j, ws[j]);
    }
}
