// The padding check of a login token: how long the content of a block of 16 cells is once its padding is gone, after RFC 5652, section 6.3, by a
// routine that runs on the library's machine and shows the same trace for every block.
#![tactic(auto)]

ghost use Rattle.padding.specs.Interface.{AnswersBlock};

use definitions::Answer;
use serving::previews::preview;
use words::write_words;

// A block has so many cells.
pub const BLOCK_CELLS: usize = 16;

// The answer to a block that is not padded.
pub const NOT_PADDED: u32 = 255;

// How the routine is called: the array that holds the block, the procedure, as many steps as every call takes, and as many trace words as every call
// records.
pub const ARRAY: u32 = 0;

pub const PROCEDURE: u32 = 0;

pub const BUDGET: u32 = 71;

pub const TRACE_WORDS: usize = 40;

// What the compiler makes of the routine (specs/Routine.antt).
const IMAGE_WORDS: usize = 60;

const IMAGE: [u32; IMAGE_WORDS] = [
    0x1001_0101, //  0 header: compiled form, 1 array, 1 procedure
    0x2001_0010, //  1 array 0: secret, 16 cells, the block
    0x3000_0005, //  2 procedure 0: open, no parameter, 5 locals
    0x4000_0001, //  3 its result: a secret word
    0x4000_0000, //  4 variable 0: a public word, i
    0x4000_0001, //  5 variable 1: a secret word, n
    0x4000_0001, //  6 variable 2: a secret word, r
    0x4000_0003, //  7 variable 3: a secret boolean, T
    0x4000_0003, //  8 variable 4: a secret boolean, E
    0x5000_0007, //  9 its body: a block of 7 statements
    0x6000_0001, // 10   n :=
    0xb000_0000, // 11     a cell of the block
    0x7000_000f, // 12       at 15
    0x6000_0002, // 13   r :=
    0xd000_0001, // 14     subtract
    0x7000_0010, // 15       16
    0xa000_0001, // 16       n
    0x6000_0003, // 17   T :=
    0xd000_000e, // 18     or
    0xd000_000b, // 19       equal
    0xa000_0001, // 20         n
    0x7000_0000, // 21         0
    0xd000_000c, // 22       less
    0x7000_0010, // 23         16
    0xa000_0001, // 24         n
    0x6000_0004, // 25   E :=
    0xc000_0000, // 26     not
    0xa000_0003, // 27       T
    0x6000_0002, // 28   r :=
    0xe000_0000, // 29     select
    0xa000_0003, // 30       T
    0x7000_00ff, // 31       255
    0xa000_0002, // 32       r
    0x6003_0000, // 33   for i
    0x7000_0000, // 34     from 0
    0x7000_0010, // 35     to 16, which is not reached
    0x5000_0003, // 36     a block of 3 statements
    0x6000_0003, // 37       T :=
    0xd000_000d, // 38         and
    0xc000_0000, // 39           not
    0xd000_000c, // 40             less
    0xa000_0000, // 41               i
    0xd000_0001, // 42               subtract
    0x7000_0010, // 43                 16
    0xa000_0001, // 44                 n
    0xc000_0000, // 45           not
    0xd000_000b, // 46             equal
    0xb000_0000, // 47               a cell of the block
    0xa000_0000, // 48                 at i
    0xa000_0001, // 49               n
    0x6000_0004, // 50       E :=
    0xc000_0000, // 51         not
    0xa000_0003, // 52           T
    0x6000_0002, // 53       r :=
    0xe000_0000, // 54         select
    0xa000_0003, // 55           T
    0x7000_00ff, // 56           255
    0xa000_0002, // 57           r
    0x6004_0000, // 58   return
    0xa000_0002, // 59     r
];

// The block's cells are lent to the machine as they are. A block that is not 16 cells long is not padded.
pub fn unpadded_length(block: &[u8]) -> u32
    ensures { AnswersBlock block.now block.now result }
{
    if block.len() / 4 != BLOCK_CELLS {
        return NOT_PADDED;
    }
    let mut image = [0u8; 4 * IMAGE_WORDS];
    write_words(&IMAGE, &mut image, IMAGE_WORDS);
    let mut trace = [0u8; 4 * TRACE_WORDS];
    match preview(&image, block, PROCEDURE, &[], BUDGET, &mut trace) {
        Answer::Done(number, _, _) => number,
        Answer::Stopped(_, _, _, _) => NOT_PADDED,
        Answer::Refused(_, _) => NOT_PADDED,
    }
}

// The same by the name that it has in C, where the crate padding_c exports it: a block's bytes, four a cell, most significant first.
pub fn tinesage_unpadded_length(block: &[u8]) -> u32
    ensures { AnswersBlock block.now block.now result }
{
    unpadded_length(block)
}
