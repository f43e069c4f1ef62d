// What a place keeps of its client: which access group answers, the right, and which rules of that group stand.
#![tactic(auto)]

ghost use Rattle.std.specs.Prelude.{◌≡◌, true};
ghost use Rattle.spec_file.specs.Limit.{access_groups};
ghost use Rattle.spec_table.specs.Check.{is_table};
ghost use Rattle.spec_places.specs.Storage.{nothing_kept};
ghost use Rattle.table_read.specs.Stored.{Stored};
ghost use Rattle.reg_bytes.specs.Placed.{client_lent};
ghost use Rattle.reg_kept.specs.Kept.{Keeps, kept_by_number, kept_of, outcomes_now};

use reg_bytes::Client;
use table_read::Section;

// The readings of an access group.
pub const LETTERS: usize = 21;

// The number of the answering group and 1, or 0; the right's code; and of each of the group's rules, count of them, 1 if it stands.
#[derive(Clone, Copy)]
pub struct Kept {
    pub number: u8,
    pub right: u8,
    pub count: usize,
    pub flags: [u8; 256],
}

// Where no group answers, or the bytes are no table.
pub fn nothing_kept() -> Kept
    ensures { Keeps nothing_kept result }
{
    Kept {
        number: 0,
        right: 0,
        count: 0,
        flags: [0; 256],
    }
}

// Whose calculations are true now, of an access group's rules. Inner: callers know the group from a search in a checked table.
pub fn outcomes_of(table: &[u8], group: usize, states: &[u8], values: &[f64]) -> [u8; 256]
    requires { Stored table.now access_groups group }
    ensures { result ≡ outcomes_now table.now group states.now values.now }
{
    let inputs = reg_inputs::inputs_at(states, values, group * LETTERS);
    let mut outcomes: [u8; 256] = [0; 256];
    ask_keep::calculate(table, group, &inputs, &mut outcomes);
    outcomes
}

// What is kept of a client that an access group answers for: each rule is tried at most once, each calculation run once.
fn kept_by_group(table: &[u8], i: usize, c: Client, states: &[u8], values: &[f64]) -> Kept
    requires { Stored table.now access_groups i }
    ensures { Keeps (kept_by_number table.now states.now values.now i (client_lent c.entry)) result }
{
    let mut flags: [u8; 256] = [0; 256];
    ask_keep::keep(table, i, c.user, c.host, c.level as usize, &mut flags, 0);
    let outcomes = outcomes_of(table, i, states, values);
    let right = ask_number::number(ask_kept::kept_decision(table, i, &flags, 0, &outcomes));
    let count = table_read::field(table, Section::AccessGroups, i, 5);
    Kept {
        number: (i + 1) as u8,
        right,
        count,
        flags,
    }
}

// What is kept of a client. Inner: callers have asked is_table, or have the bytes of an accepted load; of other bytes nothing is kept.
pub fn kept_checked(table: &[u8], c: Client, states: &[u8], values: &[f64]) -> Kept
    requires { is_table table.now ≡ true }
    ensures { Keeps (kept_of table.now states.now values.now (client_lent c.entry)) result }
{
    match table_find::answering_group(table, c.group) {
        None => nothing_kept(),
        Some(i) => kept_by_group(table, i, c, states, values),
    }
}
