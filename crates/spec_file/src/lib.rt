#![tactic(auto)]

// The load's refusals: 01, "Load refusals, in their order", and 02. specs/Refusal.antt gives each its number.

#[derive(Clone, Copy)]
pub enum Refusal {
    FileTooLong,
    BadByte,
    TooDeep,
    Ungrammatical,
    StringTooLong,
    TooMany,
    GivenAgain,
    UndefinedGroup,
    BadLevel,
    UnknownWord,
    BadCalculation,
    NoRoom,
}

// The warnings of an accepted load. specs/Warning.antt gives each its number.
#[derive(Clone, Copy)]
pub enum Warning {
    UnknownItem,
    UnknownPredicate,
}
