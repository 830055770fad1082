// The words of an image: their fields by the paper's names, and what may stand where. No other crate takes a word apart.
#![tactic(auto)]

ghost use Rattle.std.specs.Prelude.{◌≡◌, ◌+◌, ◌<◌};
ghost use Rattle.definitions.specs.Image.{kind_of, payload_of, form_of, arrays_of, procedures_of, array_secret, array_length, mode_of};
ghost use Rattle.definitions.specs.Image.{parameters_of, locals_of, type_secret, type_sort, op_of, target_of, called_of, result_of};

pub mod kinds; // the kinds of expressions
pub mod ops; // the ops of statements
pub mod lists; // an element or 0, a store where there is room, casts
pub mod limits; // what each form allows
pub mod valid; // which words may stand where
pub mod made; // words made of fields
pub mod skipping; // the place after expressions

// "kind in the top 4 bits (one hexadecimal digit), payload in the other 28"
const KIND_UNIT: u32 = 0x1000_0000;

// Of a payload: "form × 65536", "mode × 65536", "op × 65536", "label × 65536".
const HIGH_UNIT: u32 = 0x1_0000;

// Of a payload: "arrays × 256", "parameters × 256", "procedure × 256".
const MIDDLE_UNIT: u32 = 0x100;

// The kinds of the words that begin no expression.
const HEADER: u32 = 1;

const ARRAY: u32 = 2;

const PROCEDURE: u32 = 3;

const TYPE: u32 = 4;

const BLOCK: u32 = 5;

const STATEMENT: u32 = 6;

pub fn kind(w: u32) -> u32
    ensures { result ≡ kind_of w }
{
    w / KIND_UNIT
}

pub fn payload(w: u32) -> u32
    ensures { (result ≡ payload_of w) × (result < 268435456) }
{
    w % KIND_UNIT
}

// Of a header: form, number of arrays, number of procedures.
pub fn form(w: u32) -> u32
    ensures { result ≡ form_of w }
{
    w % KIND_UNIT / HIGH_UNIT
}

pub fn arrays(w: u32) -> u32
    ensures { result ≡ arrays_of w }
{
    w % KIND_UNIT / MIDDLE_UNIT % MIDDLE_UNIT
}

pub fn procedures(w: u32) -> u32
    ensures { result ≡ procedures_of w }
{
    w % KIND_UNIT % MIDDLE_UNIT
}

// Of an array's word: label and number of cells.
pub fn array_secret(w: u32) -> bool
    ensures { result ≡ array_secret w }
{
    w % KIND_UNIT / HIGH_UNIT == 1
}

pub fn array_length(w: u32) -> u32
    ensures { (result ≡ array_length w) × (result < 65536) }
{
    w % HIGH_UNIT
}

// Of a procedure's word: mode, numbers of parameters and locals.
pub fn mode(w: u32) -> u32
    ensures { result ≡ mode_of w }
{
    w % KIND_UNIT / HIGH_UNIT
}

pub fn parameters(w: u32) -> u32
    ensures { (result ≡ parameters_of w) × (result < 256) }
{
    w % KIND_UNIT / MIDDLE_UNIT % MIDDLE_UNIT
}

pub fn locals(w: u32) -> u32
    ensures { (result ≡ locals_of w) × (result < 256) }
{
    w % KIND_UNIT % MIDDLE_UNIT
}

// The number of variables: parameters and locals.
pub fn variables(w: u32) -> u32
    ensures { (result ≡ parameters_of w + locals_of w) × (result < 512) }
{
    parameters(w) + locals(w)
}

// Of a type word: label and sort.
pub fn type_secret(w: u32) -> bool
    ensures { result ≡ type_secret w }
{
    w % 2 == 1
}

pub fn type_sort(w: u32) -> u32
    ensures { (result ≡ type_sort w) × (result < 2) }
{
    w / 2 % 2
}

// Of a statement's word: op, what it is aimed at, and of a call the procedure and the result's variable.
pub fn op(w: u32) -> u32
    ensures { result ≡ op_of w }
{
    w % KIND_UNIT / HIGH_UNIT
}

pub fn target(w: u32) -> u32
    ensures { (result ≡ target_of w) × (result < 65536) }
{
    w % HIGH_UNIT
}

pub fn called(w: u32) -> u32
    ensures { (result ≡ called_of w) × (result < 256) }
{
    w % HIGH_UNIT / MIDDLE_UNIT
}

pub fn result(w: u32) -> u32
    ensures { (result ≡ result_of w) × (result < 256) }
{
    w % MIDDLE_UNIT
}
