// The look-up of an input, and of a group by its number, on a table that was checked before.
#![tactic(auto)]

ghost use Rattle.std.specs.Prelude.{◌≡◌, true};
ghost use Rattle.spec_table.specs.Check.{is_table};
ghost use Rattle.spec_decision.specs.LookUp.{look_up};
ghost use Rattle.spec_decision.specs.Walk.{group_at};
ghost use Rattle.ask_input.specs.Input.{FindsLetter};

use spec_decision::Found;
use table_read::Section;

// The input of a letter. ask::look_up has asked is_table.
pub fn input_of(table: &[u8], group: &[u8], letter: u32) -> Option<usize>
    requires { is_table table.now ≡ true }
    ensures { FindsLetter table.now group.now letter result }
{
    let i = table_find::answering_group(table, group)?;
    table_find::first_input(table, i, letter as usize)
}

// Where the name of a letter's input stands, in a table that was checked before. Callers as of ask_checked::decide_checked; others call ask::find_input.
pub fn find_input_checked(table: &[u8], group: &[u8], letter: u32) -> Found
    requires { is_table table.now ≡ true }
    ensures { result ≡ look_up table.now group.now letter }
{
    match input_of(table, group, letter) {
        None => Found::NoInput,
        Some(i) => table_read::name_part(table, Section::Inputs, i),
    }
}

// Where the name of the access group of a number stands, in a table that was checked before. Callers as of find_input_checked; others call ask::group_at.
pub fn group_at_checked(table: &[u8], number: usize) -> Found
    requires { is_table table.now ≡ true }
    ensures { result ≡ group_at table.now number }
{
    if number < table_read::count(table, Section::AccessGroups) {
        table_read::name_part(table, Section::AccessGroups, number)
    } else {
        Found::NoInput
    }
}
