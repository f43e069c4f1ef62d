// The answer to a question on any bytes, the look-up of an input, and of a group by its number. ask_checked and ask_input have them for a table that was
// checked before.
#![tactic(auto)]

ghost use Rattle.std.specs.Prelude.{◌≡◌};
ghost use Rattle.spec_rule.specs.Question.{lent_question};
ghost use Rattle.spec_decision.specs.Decision.{decide};
ghost use Rattle.spec_decision.specs.LookUp.{look_up, part_in};
ghost use Rattle.spec_decision.specs.Walk.{group_at};

use spec_calc::Reading;
use spec_decision::{Answer, Found};
use table_read::Section;

// The answer to a question on any bytes.
pub fn decide(
    table: &[u8],
    group: &[u8],
    user: &[u8],
    host: &[u8],
    roles: &[u8],
    lengths: &[u8],
    level: u32,
    rs: [Reading; 21],
) -> Answer
    ensures { result ≡ decide table.now (lent_question group.now user.now host.now roles.now lengths.now level rs) }
{
    if table::is_table(table) {
        ask_checked::decide_checked(table, group, user, host, roles, lengths, level, rs)
    } else {
        Answer::NotTable
    }
}

// Where the name of a letter's input stands in any bytes.
pub fn find_input(table: &[u8], group: &[u8], letter: u32) -> Found
    ensures { result ≡ look_up table.now group.now letter }
{
    if table::is_table(table) {
        ask_input::find_input_checked(table, group, letter)
    } else {
        Found::NotTable
    }
}

// Where the name of the access group of a number, the first being 0, stands in any bytes.
pub fn group_at(table: &[u8], number: usize) -> Found
    ensures { result ≡ group_at table.now number }
{
    if !table::is_table(table) {
        return Found::NotTable;
    }
    ask_input::group_at_checked(table, number)
}

// The part of a table that is the name of a letter's input; empty if there is none.
pub fn look_up<'a>(table: &'a [u8], group: &[u8], letter: u32) -> &'a [u8]
    ensures { result.now ≡ part_in (look_up table.now group.now letter) table.now }
{
    if table::is_table(table) {
        match ask_input::input_of(table, group, letter) {
            Some(i) => table_read::name_of(table, Section::Inputs, i),
            None => &table[0..0],
        }
    } else {
        &table[0..0]
    }
}
