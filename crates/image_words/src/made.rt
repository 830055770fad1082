// Words made of fields: those that the compiler writes.
ghost use Rattle.std.specs.Prelude.{◌≡◌, ◌+◌, ◌*◌, ◌≤◌, ◌<◌};
ghost use Rattle.definitions.specs.Encoding.{word_with, statement_word_with};
ghost use Rattle.definitions.specs.Compiling.{secret_of};

use super::ops::Op;
use super::{BLOCK, HEADER, HIGH_UNIT, KIND_UNIT, MIDDLE_UNIT, PROCEDURE, STATEMENT, TYPE};

// Words without a field to fill in.
pub const RETURN_WORD: u32 = 0x6004_0000;

pub const IF_WORD: u32 = 0x6002_0000;

pub const RAW_WORD: u32 = 0x8000_0000;

pub const FALSE_WORD: u32 = 0x9000_0000;

pub const TRUE_WORD: u32 = 0x9000_0001;

pub const NOT_WORD: u32 = 0xC000_0000;

pub const AND_WORD: u32 = 0xD000_000D;

pub const SELECT_WORD: u32 = 0xE000_0000;

// The type word of the guard, of T, E and LIVE.
pub const SECRET_BOOLEAN: u32 = 0x4000_0003;

// A payload may be one too large: the largest number that a source word can name, moved up by one.
pub fn word_with(kind: u32, payload: u32) -> u32
    requires { (kind < 15) × (payload ≤ 268435456) }
    ensures { result ≡ word_with kind payload }
{
    kind * KIND_UNIT + payload
}

pub fn statement_with(op: u32, target: u32) -> u32
    requires { (op < 6) × (target ≤ 1000000) }
    ensures { result ≡ statement_word_with op target }
{
    STATEMENT * KIND_UNIT + (op * HIGH_UNIT + target)
}

pub fn call_with(called: u32, res: u32) -> u32
    requires { (called < 256) × (res ≤ 1000000) }
    ensures { result ≡ statement_word_with 5 (called * 256 + res) }
{
    STATEMENT * KIND_UNIT + (Op::Call as u32 * HIGH_UNIT + (called * MIDDLE_UNIT + res))
}

pub fn block_with(count: u32) -> u32
    requires { count < 268435456 }
    ensures { result ≡ word_with 5 count }
{
    BLOCK * KIND_UNIT + count
}

// The word of an open procedure.
pub fn procedure_with(parameters: u32, locals: u32) -> u32
    requires { (parameters < 256) × (locals ≤ 1000000) }
    ensures { result ≡ word_with 3 (0 * 65536 + parameters * 256 + locals) }
{
    PROCEDURE * KIND_UNIT + (parameters * MIDDLE_UNIT + locals)
}

pub fn header_with(form: u32, arrays: u32, procedures: u32) -> u32
    requires { (form < 2) × (arrays < 256) × (procedures < 256) }
    ensures { result ≡ word_with 1 (form * 65536 + arrays * 256 + procedures) }
{
    HEADER * KIND_UNIT + (form * HIGH_UNIT + arrays * MIDDLE_UNIT + procedures)
}

// The type word of a secret of a sort.
pub fn secret_of(sort: u32) -> u32
    requires { sort < 2 }
    ensures { result ≡ secret_of sort }
{
    TYPE * KIND_UNIT + 2 * sort + 1
}
