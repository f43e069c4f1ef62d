// The library for gateways, which are written in C: what they call are the functions of include/hrazvanut.h, and these call the ones here and
// in the other crates abi_*. Here: those that load.
#![tactic(auto)]

ghost use Rattle.std.specs.Prelude.{◌≡◌};
ghost use Rattle.spec_load.specs.Load.{load};
ghost use Rattle.spec_load.specs.Listing.{listing};
ghost use Rattle.abi_load.specs.Answers.{Leaves, Lists, ReloadsAny};

#[unsafe(no_mangle)]
pub extern "C" fn hrazvanut_abi_load(text: &[u8], table: &mut [u8]) -> u64
    ensures { Leaves (load table.old text.now) table.new result }
{
    api_numbers::load_number(load::load(text, table))
}

#[unsafe(no_mangle)]
pub extern "C" fn hrazvanut_abi_list_warnings(
    text: &[u8],
    skip: usize,
    numbers: &mut [u8],
    places: &mut [u16],
) -> u64
    ensures { Lists (listing skip numbers.old places.old text.now) numbers.new places.new result }
{
    api_numbers::listed_number(warnings::list_warnings(text, skip, numbers, places))
}

#[unsafe(no_mangle)]
pub extern "C" fn hrazvanut_abi_reload(
    places: &mut [u8],
    states: &mut [u8],
    text: &[u8],
    table: &mut [u8],
    changed: &mut [u64],
) -> u64
    ensures { ReloadsAny table.old places.old states.old text.now
        table.new places.new states.new changed.old changed.new result }
{
    let l = reload::reload(places, states, text, table);
    api_register::tell_reloaded(l, changed)
}
