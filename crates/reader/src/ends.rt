// The table of block ends: where a block begins, the place after it, else 0. A place takes 16 bits, since no form admits more than 16,384 words.
// 0 stands for none there, and not an Option: the table is lent with a fixed size, and `Sound` and `BlockEnds` speak of its numbers.
ghost use Rattle.std.specs.Prelude.{◌≡◌, get_or};
ghost use Rattle.reader.specs.Ends.{marked, known_end};

// An end that does not fit the table is not stored: who looks for it then reads the block again.
// `ends.get_mut(at)` was tried for the second test, and what it leaves did not prove.
pub fn mark(ends: &mut [u16], at: usize, end: usize)
    ensures { ends.new ≡ marked ends.old at end }
{
    if let Ok(end) = u16::try_from(end) {
        if at < ends.len() {
            ends[at] = end;
        }
    }
}

// The end of the block at a place, where the table has it.
pub fn entry(ends: &[u16], at: usize) -> Option<usize>
    ensures { result ≡ known_end (get_or ends.now at 0) }
{
    match ends.get(at).copied().unwrap_or(0) {
        0 => None,
        end => Some(usize::from(end)),
    }
}
