// A client added and changed, over a table that was checked.
#![tactic(auto)]

ghost use Rattle.std.specs.Prelude.{◌≡◌, true};
ghost use Rattle.spec_table.specs.Check.{is_table};
ghost use Rattle.spec_places.specs.Storage.{lent};
ghost use Rattle.reg_bytes.specs.Placed.{client_lent};
ghost use Rattle.spec_places.specs.Calls.{told_added, places_added, told_changed, places_changed};

use reg_bytes::Client;
use spec_register::{Added, Changed};

// Adds a client. Inner: callers have asked is_table, or have the bytes of an accepted load.
pub fn add_checked(
    places: &mut [u8],
    states: &[u8],
    values: &[f64],
    table: &[u8],
    c: Client,
) -> Added
    requires { is_table table.now ≡ true }
    ensures value { result
        ≡ told_added
        (lent table.now places.old states.now values.now)
        (client_lent c.entry) }
    ensures places_after { places.new
        ≡ places_added
        (lent table.now places.old states.now values.now)
        (client_lent c.entry) }
{
    match reg_refuse::room_to_add(places, states, values, c) {
        Ok(p) => Added::At {
            place: p,
            changed: reg_client::enter_checked(places, states, values, table, p, c),
        },
        Err(x) => Added::Refused(x),
    }
}

// Changes the client of a place. Inner: as add_checked.
pub fn change_checked(
    places: &mut [u8],
    states: &[u8],
    values: &[f64],
    table: &[u8],
    place: usize,
    c: Client,
) -> Changed
    requires { is_table table.now ≡ true }
    ensures value { result
        ≡ told_changed
        (lent table.now places.old states.now values.now)
        place
        (client_lent c.entry) }
    ensures places_after { places.new
        ≡ places_changed
        (lent table.now places.old states.now values.now)
        place
        (client_lent c.entry) }
{
    match reg_refuse::room_to_change(places, states, values, place, c) {
        Ok(p) => Changed::Places(reg_client::enter_checked(places, states, values, table, p, c)),
        Err(x) => Changed::Refused(x),
    }
}
