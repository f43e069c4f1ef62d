#![tactic(auto)]

// The permissions of a rule and the access that a question gets: NONE, READ, WRITE.

#[derive(Clone, Copy, PartialEq, Eq, PartialOrd, Ord)]
pub enum Access {
    None,
    Read,
    Write,
}

// Which reading stopped a question: that of a letter, A being 0, or of none.
// Stays: spec_demand/specs/Front.antt: Total.refused_question is stated with Nothing.
#[derive(Clone, Copy, PartialEq, Eq)]
pub enum Stop {
    Nothing,
    Letter(u8),
}

// What the rules of a group give a question: an access, whether writes are trapped, and the letter whose reading stopped more.
#[derive(Clone, Copy)]
pub struct Decision {
    pub access: Access,
    pub trap: bool,
    pub letter: Stop,
}

// What a rule's calculation comes to: true, as where it has none; false; or bad by a letter.
// Stays: three cases, and spec_rule/specs/Rule.antt states the rules with them.
#[derive(Clone, Copy, PartialEq, Eq)]
pub enum Outcome {
    True,
    False,
    Stopped(u8),
}

// What rules give before it is known which access they give together with others: low is the first stop of a rule above NONE, high of one above READ.
#[derive(Clone, Copy)]
pub struct Verdict {
    pub access: Access,
    pub trap: bool,
    pub low: Stop,
    pub high: Stop,
}
