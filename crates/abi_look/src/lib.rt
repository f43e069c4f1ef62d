// The library's functions for C that look into a table that was checked: which input it has, which groups. include/hrazvanut.h calls them.
#![tactic(auto)]

ghost use Rattle.std.specs.Prelude.{◌≡◌, true};
ghost use Rattle.spec_table.specs.Check.{is_table};
ghost use Rattle.spec_decision.specs.LookUp.{look_up};
ghost use Rattle.spec_decision.specs.Walk.{group_at};
ghost use Rattle.api_numbers.specs.Numbers.{found_number};

// Asks of its caller: hrazvanut_abi_is_table has said 1 of the same bytes, or an accepted load left them.
#[unsafe(no_mangle)]
pub extern "C" fn hrazvanut_abi_find_input_checked(table: &[u8], group: &[u8], letter: u32) -> u64
    requires { is_table table.now ≡ true }
    ensures { result ≡ found_number (look_up table.now group.now letter) }
{
    api_answers::found_number(ask_input::find_input_checked(table, group, letter))
}

// Asks of its caller what hrazvanut_abi_find_input_checked does: a gateway walks over the table of an accepted load.
#[unsafe(no_mangle)]
pub extern "C" fn hrazvanut_abi_group_at_checked(table: &[u8], number: usize) -> u64
    requires { is_table table.now ≡ true }
    ensures { result ≡ found_number (group_at table.now number) }
{
    api_answers::found_number(ask_input::group_at_checked(table, number))
}
