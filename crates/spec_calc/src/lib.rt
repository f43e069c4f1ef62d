#![tactic(auto)]

// 01, "The question": a reading is never heard, or invalid, or a binary64 value.

// Stays: 01, "Forms for each place", wants an enum whose one case carries an f64.
#[derive(Clone, Copy)]
pub enum Reading {
    NeverHeard,
    Invalid,
    Value(f64),
}

// What a text comes to: no calculation; bad by a letter, A being 0, the lowest of it whose reading is bad; bad by arithmetic, where an evaluated
// part of it is not finite; or a value.
// Stays: four cases, and spec_demand/specs/Cases.antt states the proved cases with them.
#[derive(Clone, Copy)]
pub enum Worth {
    NoCalculation,
    BadBy(u8),
    BadByArithmetic,
    Is(f64),
}

// The operators of a calculation that stand between two operands.
#[derive(Clone, Copy)]
pub enum Operator {
    Or,
    And,
    Less,
    AtMost,
    More,
    AtLeast,
    Equal,
    Differs,
    Plus,
    Minus,
    Times,
    Over,
}
