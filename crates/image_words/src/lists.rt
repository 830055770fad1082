// Elements of lists of words: what is not there is 0, and what has no room is not stored.
ghost use Rattle.std.specs.Prelude.{◌≡◌, ◌<◌, get_or, set};

// A word as an index: a cast of its own, so that its bound is known where it is used.
pub fn wide(x: u32) -> usize
    ensures { (result ≡ x) × (result < 4294967296) }
{
    x as usize
}

// A place as a word.
pub fn narrow(x: usize) -> u32
    requires { x < 4294967296 }
    ensures { result ≡ x }
{
    x as u32
}

// The element at an index, 0 past the end.
pub fn element(list: &[u32], i: usize) -> u32
    ensures { result ≡ get_or list.now i 0 }
{
    list.get(i).copied().unwrap_or(0)
}

// Stores at an index; past the end there is nothing to store in. (Not by `get_mut`, whose contract tells the length of the list and no element.)
#[tactic(auto, using(crate::proofs::ListRules::put_past))]
pub fn put(list: &mut [u32], i: usize, v: u32)
    ensures { list.new ≡ set list.old i v }
{
    if i < list.len() {
        list[i] = v;
    }
}
