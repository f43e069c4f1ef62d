// A gateway's clients, added and changed. Any bytes are taken.
#![tactic(auto)]

ghost use Rattle.std.specs.Prelude.{◌≡◌};
ghost use Rattle.spec_register.specs.Register.{client_of};
ghost use Rattle.spec_places.specs.Storage.{lent};
ghost use Rattle.spec_places.specs.Calls.{told_added, places_added, told_changed, places_changed};

use reg_bytes::Client;
use spec_register::{Added, Changed};

// Adds a client at the lowest free place. Over bytes that are no table its right is NONE.
pub fn add(
    places: &mut [u8],
    states: &[u8],
    values: &[f64],
    table: &[u8],
    group: &[u8],
    user: &[u8],
    host: &[u8],
    level: u32,
) -> Added
    ensures value { result
        ≡ told_added
        (lent table.now places.old states.now values.now)
        (client_of group.now level user.now host.now) }
    ensures places_after { places.new
        ≡ places_added
        (lent table.now places.old states.now values.now)
        (client_of group.now level user.now host.now) }
{
    let c = Client {
        group,
        user,
        host,
        level,
    };
    match reg_refuse::room_to_add(places, states, values, c) {
        Ok(p) => Added::At {
            place: p,
            changed: reg_client::enter(places, states, values, table, p, c),
        },
        Err(x) => Added::Refused(x),
    }
}

// Changes the client of a place.
pub fn change(
    places: &mut [u8],
    states: &[u8],
    values: &[f64],
    table: &[u8],
    place: usize,
    group: &[u8],
    user: &[u8],
    host: &[u8],
    level: u32,
) -> Changed
    ensures value { result
        ≡ told_changed
        (lent table.now places.old states.now values.now)
        place
        (client_of group.now level user.now host.now) }
    ensures places_after { places.new
        ≡ places_changed
        (lent table.now places.old states.now values.now)
        place
        (client_of group.now level user.now host.now) }
{
    let c = Client {
        group,
        user,
        host,
        level,
    };
    match reg_refuse::room_to_change(places, states, values, place, c) {
        Ok(p) => Changed::Places(reg_client::enter(places, states, values, table, p, c)),
        Err(x) => Changed::Refused(x),
    }
}
