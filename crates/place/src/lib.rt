// One place of a register: its client removed, its right told. Any bytes are taken.
#![tactic(auto)]

ghost use Rattle.std.specs.Prelude.{◌≡◌};
ghost use Rattle.spec_places.specs.Storage.{right_in};
ghost use Rattle.spec_places.specs.Calls.{told_removed, places_removed};

use reg_bytes::PLACES;
use spec_register::Changed;
use spec_rule::Decision;

// Removes the client of a place.
pub fn remove(places: &mut [u8], place: usize) -> Changed
    ensures value { result ≡ told_removed places.old place }
    ensures places_after { places.new ≡ places_removed places.old place }
{
    match reg_refuse::room_to_remove(places, place) {
        Ok(p) => Changed::Places(reg_enter::free(places, p)),
        Err(x) => Changed::Refused(x),
    }
}

// The right of a place: a look at one byte.
pub fn right(places: &[u8], place: usize) -> Decision
    ensures { result ≡ right_in places.now place }
{
    if !reg_bytes::has_places(places) || PLACES <= place {
        return ask_number::from_number(0);
    }
    ask_number::from_number(reg_bytes::right(places, place))
}
