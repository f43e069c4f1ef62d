#![tactic(auto)]

// What a token says in its place in the grammar.

#[derive(Clone, Copy, PartialEq, Eq)]
pub enum Role {
    // nothing: punctuation, the words UAG, HAG and ASG, all inside an unknown element
    NoRole,
    UagName,
    User,
    HagName,
    Host,
    AsgName,
    // the INP word and its process variable name
    Input,
    Pvname,
    // the RULE word and its arguments
    RuleWord,
    Level,
    Permission,
    LogOption,
    // a group named in a rule
    UagNamed,
    HagNamed,
    // the CALC word and its text
    CalcWord,
    Calculation,
    // the name of an unknown item, of an unknown predicate
    UnknownItem,
    UnknownPredicate,
}
