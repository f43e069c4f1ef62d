#![tactic(auto)]

// What a question is answered: the decision of the rules, or a refusal.
// Stays: spec_demand/specs/Front.antt: Exact.not_table, bad_level, bad_roles and by_table are stated with its cases.
#[derive(Clone, Copy)]
pub enum Answer {
    Answered(spec_rule::Decision),
    NotTable,
    BadLevel,
    BadRoles,
}

// What the look-up finds: the part of the table that holds the name, or a refusal.
// Stays: spec_demand/specs/Front.antt: Exact.part_found and no_input_found are stated with its cases.
#[derive(Clone, Copy)]
pub enum Found {
    Part { at: usize, length: usize },
    NotTable,
    NoInput,
}
