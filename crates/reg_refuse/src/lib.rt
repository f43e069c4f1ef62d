// Whether a call on a client is refused, and at which place it is made if not.
#![tactic(auto)]

ghost use Rattle.std.specs.Prelude.{◌≡◌, []};
ghost use Rattle.spec_register.specs.Refusal.{long_name, no_client};
ghost use Rattle.spec_places.specs.Storage.{lent, standing_in};
ghost use Rattle.reg_bytes.specs.Placed.{Placed, client_lent};
ghost use Rattle.reg_refuse.specs.Room.{room_or, client_refusal, room_to_add, room_to_change, room_to_remove};

use reg_bytes::{Client, LONGEST_NAME, PLACES};
use spec_register::Refused;

fn has_long_name(c: Client) -> bool
    ensures { result ≡ long_name (client_lent c.entry) }
{
    LONGEST_NAME < c.group.len() || LONGEST_NAME < c.user.len() || LONGEST_NAME < c.host.len()
}

// 23, 21
fn can_stand(c: Client) -> Result<(), Refused>
    ensures { result ≡ room_or (client_refusal (client_lent c.entry)) tt }
{
    if has_long_name(c) {
        return Err(Refused::LongName);
    }
    if 1 < c.level {
        return Err(Refused::BadLevel);
    }
    Ok(())
}

fn has_no_client(places: &[u8], p: usize) -> bool
    requires { Placed places.now 0 }
    ensures { result ≡ no_client (standing_in places.now) p }
{
    PLACES <= p || !reg_bytes::is_taken(places, p)
}

// 34, 23, 21, 24
pub fn room_to_add(
    places: &[u8],
    states: &[u8],
    values: &[f64],
    c: Client,
) -> Result<usize, Refused>
    ensures { result ≡ room_to_add (lent [] places.now states.now values.now) (client_lent c.entry) }
{
    if !reg_bytes::is_register(places, states, values) {
        return Err(Refused::NotRegister);
    }
    can_stand(c)?;
    reg_bytes::lowest_free(places).ok_or(Refused::NoPlace)
}

// 34, 25, 23, 21
pub fn room_to_change(
    places: &[u8],
    states: &[u8],
    values: &[f64],
    place: usize,
    c: Client,
) -> Result<usize, Refused>
    ensures { result ≡ room_to_change (lent [] places.now states.now values.now) place (client_lent c.entry) }
{
    if !reg_bytes::is_register(places, states, values) {
        return Err(Refused::NotRegister);
    }
    if has_no_client(places, place) {
        return Err(Refused::NoClient);
    }
    can_stand(c).and(Ok(place))
}

// 34, 25
pub fn room_to_remove(places: &[u8], place: usize) -> Result<usize, Refused>
    ensures { result ≡ room_to_remove places.now place }
{
    if !reg_bytes::has_places(places) {
        return Err(Refused::NotRegister);
    }
    if has_no_client(places, place) {
        return Err(Refused::NoClient);
    }
    Ok(place)
}
