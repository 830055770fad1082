// A board probe's recording, held against the machine's trace: two cursors over lent bytes of any length.
#![tactic(auto)]

ghost use Rattle.std.specs.Prelude.{◌≡◌, true, ◌+◌, ◌*◌, ◌/◌, ◌<◌, ◌≤◌, length, drop};
ghost use Rattle.definitions.specs.Bytes.{words_of};
ghost use Rattle.definitions.specs.Comparing.{observed, observable, probe_entries};
ghost use Rattle.definitions.specs.Host.{compare_bytes};
ghost use Rattle.comparing.specs.Steps.{begins_with, Stepped};

use definitions::Compared;
use image_words::kind;
use image_words::made::word_with;
use tracing::Entry;
use words::word;

// "only branches, indices and calls"
fn is_observable(kind: u32) -> bool
    ensures { result ≡ observable kind }
{
    kind == Entry::Branch.number()
        || kind == Entry::Index.number()
        || kind == Entry::Called.number()
}

// Whether the next entry of a recording, after n, has this kind and this value.
fn is_next(probe: &[u8], n: usize, kind: u32, value: u32) -> bool
    requires { (2 * n ≤ length probe.now / 4) × (observable kind ≡ true) }
    ensures { result ≡ begins_with (observed kind value) (probe_entries (drop (2 * n) (words_of probe.now))) }
{
    let at = 2 * n;
    at + 1 < probe.len() / 4
        && word(probe, at) == word_with(kind, 0)
        && value == word(probe, at + 1)
}

// The two words of the trace at a place, after n entries that are equal: how many are equal then, or none where the trace and the
// recording part here.
fn advance(trace: &[u8], at: usize, probe: &[u8], n: usize) -> Option<usize>
    requires { (at + 1 < length trace.now / 4) × (2 * n ≤ length probe.now / 4) }
    ensures { Stepped result (words_of trace.now) at (words_of probe.now) n }
{
    let w = word(trace, at);
    let k = kind(w);
    if !is_observable(k) {
        return Some(n);
    }
    if is_next(probe, n, k, word(trace, at + 1)) {
        return Some(n + 1);
    }
    None
}

// Holds a recording against a trace.
pub fn compare(trace: &[u8], probe: &[u8]) -> Compared
    ensures { result ≡ compare_bytes trace.now probe.now }
{
    let mut n = 0;
    for entry in 0..trace.len() / 8 {
        let Some(equal) = advance(trace, 2 * entry, probe, n) else {
            return Compared::Part(n);
        };
        n = equal;
    }
    if 2 * n < probe.len() / 4 {
        return Compared::Part(n);
    }
    Compared::Agree(n)
}
