// The library's functions for C that look at a table: whether bytes are one, which input it has, which groups. include/hrazvanut.h calls them.
#![tactic(auto)]

ghost use Rattle.std.specs.Prelude.{◌≡◌};
ghost use Rattle.spec_table.specs.Check.{is_table};
ghost use Rattle.spec_decision.specs.LookUp.{look_up};
ghost use Rattle.spec_decision.specs.Walk.{group_at};
ghost use Rattle.api_numbers.specs.Numbers.{found_number, yes};

#[unsafe(no_mangle)]
pub extern "C" fn hrazvanut_abi_is_table(table: &[u8]) -> u8
    ensures { result ≡ yes (is_table table.now) }
{
    u8::from(table::is_table(table))
}

#[unsafe(no_mangle)]
pub extern "C" fn hrazvanut_abi_find_input(table: &[u8], group: &[u8], letter: u32) -> u64
    ensures { result ≡ found_number (look_up table.now group.now letter) }
{
    api_answers::found_number(ask::find_input(table, group, letter))
}

#[unsafe(no_mangle)]
pub extern "C" fn hrazvanut_abi_group_at(table: &[u8], number: usize) -> u64
    ensures { result ≡ found_number (group_at table.now number) }
{
    api_answers::found_number(ask::group_at(table, number))
}
