#![tactic(auto)]

// What an export answers: the text's length, or a refusal.
// Stays: spec_demand/specs/Front.antt: no_table, unwritable and the texts written are stated with its cases.
#[derive(Clone, Copy)]
pub enum Exported {
    Written(usize),
    NotTable,
    Unwritable,
    NoRoom(usize),
}
