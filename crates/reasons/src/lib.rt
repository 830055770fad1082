// The refusals and stops of document 01 by name, with the number that each has there.
#![tactic(auto)]

ghost use Rattle.std.specs.Prelude.{◌≡◌};
ghost use Rattle.definitions.specs.Faults.{fault};
ghost use Rattle.reasons.specs.Numbers.{reason_number};

use definitions::Fault;

#[derive(Clone, Copy, PartialEq, Eq)]
pub enum Reason {
    // an image that is empty, too long or not whole words
    Length,
    // a word of a wrong kind or payload
    Word,
    EndsEarly,
    SpareWord,
    TooDeep,
    // no such variable or array
    NoSuchName,
    WrongSort,
    LoopVariable,
    // a secret to where it may not go
    Flow,
    SecretWherePublic,
    Unbounded,
    // a call of a procedure that is not guarded, in a secret context
    OpenCall,
    // a secret branch in a compiled image
    SecretBranch,
    // a compiled image, where a source is wanted
    NoSource,
    // a result over the compiled form's limits
    TooLarge,
    // an output too short for the result
    OutputShort,
    // no such procedure, array or cell
    Missing,
    ArgumentCount,
    NothingLoaded,
    BudgetSpent,
    TraceFull,
    IndexBeyond,
    DivisorZero,
    // a for whose bounds are not constants
    VariableFor,
    // a bound on the steps that no word holds
    AboveLimit,
}

impl Reason {
    pub fn number(self) -> u32
        ensures { result ≡ reason_number self }
    {
        match self {
            Reason::Length => 1,
            Reason::Word => 2,
            Reason::EndsEarly => 3,
            Reason::SpareWord => 4,
            Reason::TooDeep => 5,
            Reason::NoSuchName => 6,
            Reason::WrongSort => 7,
            Reason::LoopVariable => 8,
            Reason::Flow => 9,
            Reason::SecretWherePublic => 10,
            Reason::Unbounded => 11,
            Reason::OpenCall => 12,
            Reason::SecretBranch => 13,
            Reason::NoSource => 14,
            Reason::TooLarge => 15,
            Reason::OutputShort => 16,
            Reason::Missing => 17,
            Reason::ArgumentCount => 18,
            Reason::NothingLoaded => 20,
            Reason::BudgetSpent => 21,
            Reason::TraceFull => 22,
            Reason::IndexBeyond => 23,
            Reason::DivisorZero => 24,
            Reason::VariableFor => 32,
            Reason::AboveLimit => 33,
        }
    }

    // What a refusal names: the number of the reason, and the place.
    pub fn at(self, place: usize) -> Fault
        ensures { result ≡ fault (reason_number self) place }
    {
        Fault {
            number: self.number(),
            place,
        }
    }
}
