#![tactic(auto)]

// Why a call of the register is refused.
#[derive(Clone, Copy)]
pub enum Refused {
    NotRegister,
    NotTable,
    BadLevel,
    NoInput,
    LongName,
    NoPlace,
    NoClient,
}

// What adding a client answers: its place, and which places' rights have changed, a bit for each.
// Stays: spec_demand/specs/Front.antt states request 1 with its cases.
#[derive(Clone, Copy)]
pub enum Added {
    At { place: usize, changed: u64 },
    Refused(Refused),
}

// What changing or removing a client and setting a reading answer: which places' rights have changed.
// Stays: spec_register/specs/Sentences.antt states the ticket's sentences with its cases.
#[derive(Clone, Copy)]
pub enum Changed {
    Places(u64),
    Refused(Refused),
}

// What a load under a register answers.
// Stays: spec_demand/specs/Front.antt: reloaded_as is stated with its cases.
#[derive(Clone, Copy)]
pub enum Reloaded {
    Accepted {
        length: usize,
        warnings: usize,
        changed: u64,
    },
    Refused {
        refusal: spec_file::Refusal,
        place: usize,
    },
    NotRegister,
}
