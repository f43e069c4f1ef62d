// A gateway's readings: one set, and the rights that follow from it. Any bytes are taken.
#![tactic(auto)]

ghost use Rattle.spec_places.specs.Storage.{lent};
ghost use Rattle.spec_places.specs.Calls.{told_set, left_set};
ghost use Rattle.reg_set.specs.Set.{Given};

use spec_calc::Reading;
use spec_register::{Changed, Refused};

// Sets one reading of the access group of a name, and says which rights have changed. Refused: 34, 20, 22.
pub fn set(
    places: &mut [u8],
    states: &mut [u8],
    values: &mut [f64],
    table: &[u8],
    group: &[u8],
    letter: u32,
    r: Reading,
) -> Changed
    ensures { Given
        (told_set (lent table.now places.old states.old values.old) group.now letter r)
        (left_set (lent table.now places.old states.old values.old) group.now letter r)
        result
        (lent table.now places.new states.new values.new) }
{
    if !reg_bytes::is_register(places, states, values) {
        return Changed::Refused(Refused::NotRegister);
    }
    if !table::is_table(table) {
        return Changed::Refused(Refused::NotTable);
    }
    reg_set::set_checked(places, states, values, table, group, letter, r)
}
