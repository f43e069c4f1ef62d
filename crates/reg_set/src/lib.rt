// A reading set: its state and value written, and the rights of its group's places renewed.
#![tactic(auto)]

ghost use Rattle.std.specs.Prelude.{◌≡◌, true, ◌<◌};
ghost use Rattle.spec_file.specs.Limit.{access_groups};
ghost use Rattle.spec_table.specs.Check.{is_table};
ghost use Rattle.spec_register.specs.Register.{letters};
ghost use Rattle.spec_places.specs.Storage.{lent};
ghost use Rattle.spec_places.specs.Writing.{state_of};
ghost use Rattle.spec_places.specs.Calls.{is_register, told_set, left_set};
ghost use Rattle.table_read.specs.Stored.{Stored};
ghost use Rattle.reg_set.specs.Set.{Given, HasInput, ReadingSet};

use reg_kept::LETTERS;
use spec_calc::Reading;
use spec_register::{Changed, Refused};

fn state_of(r: Reading) -> u8
    ensures { result ≡ state_of r }
{
    match r {
        Reading::NeverHeard => 0,
        Reading::Invalid => 1,
        Reading::Value(_) => 2,
    }
}

// The number of the access group of a name, if it has an input of a letter.
fn group_with_input(table: &[u8], group: &[u8], letter: u32) -> Option<usize>
    requires { is_table table.now ≡ true }
    ensures { HasInput table.now group.now letter result }
{
    let i = table_find::group_named(table, group)?;
    table_find::first_input(table, i, letter as usize)?;
    Some(i)
}

// A reading of the i-th access group written, and the rights of its places renewed.
fn set_reading(
    places: &mut [u8],
    states: &mut [u8],
    values: &mut [f64],
    table: &[u8],
    i: usize,
    letter: u32,
    r: Reading,
) -> u64
    requires values_value { is_register (lent table.now places.old states.old values.old) ≡ true }
    requires stored { Stored table.now access_groups i × (letter < letters) }
    ensures { ReadingSet
        (lent table.now places.old states.old values.old)
        i
        letter
        r
        (lent table.now places.new states.new values.new)
        result }
{
    let at = i * LETTERS + letter as usize;
    states[at] = state_of(r);
    values[at] = calc_inputs::value_of(r);
    reg_group::renew(places, states, values, table, i)
}

// Sets one reading of the access group of a name, and says which rights have changed. Refused: 34, 22. Inner: callers have asked is_table.
pub fn set_checked(
    places: &mut [u8],
    states: &mut [u8],
    values: &mut [f64],
    table: &[u8],
    group: &[u8],
    letter: u32,
    r: Reading,
) -> Changed
    requires { is_table table.now ≡ true }
    ensures { Given
        (told_set (lent table.now places.old states.old values.old) group.now letter r)
        (left_set (lent table.now places.old states.old values.old) group.now letter r)
        result
        (lent table.now places.new states.new values.new) }
{
    if !reg_bytes::is_register(places, states, values) {
        return Changed::Refused(Refused::NotRegister);
    }
    match group_with_input(table, group, letter) {
        None => Changed::Refused(Refused::NoInput),
        Some(i) => Changed::Places(set_reading(places, states, values, table, i, letter, r)),
    }
}
