// The library's functions for C on one place of a register: its client removed, its right told. include/hrazvanut.h calls them.
#![tactic(auto)]

ghost use Rattle.std.specs.Prelude.{◌≡◌};
ghost use Rattle.spec_places.specs.Storage.{right_in};
ghost use Rattle.spec_rule.specs.Number.{decision_number};
ghost use Rattle.abi_place.specs.Answers.{Removes};

#[unsafe(no_mangle)]
pub extern "C" fn hrazvanut_abi_remove(places: &mut [u8], place: usize, changed: &mut [u64]) -> u64
    ensures { Removes places.old place places.new changed.old changed.new result }
{
    let removed = place::remove(places, place);
    api_register::tell_changed(removed, changed)
}

#[unsafe(no_mangle)]
pub extern "C" fn hrazvanut_abi_right_letter(places: &[u8], place: usize) -> u8
    ensures { result ≡ decision_number (right_in places.now place) }
{
    ask_number::number(place::right(places, place))
}
