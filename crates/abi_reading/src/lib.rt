// The library's functions for C that set a register's reading. include/hrazvanut.h calls them.
#![tactic(auto)]

ghost use Rattle.std.specs.Prelude.{◌≡◌, true};
ghost use Rattle.spec_calc.specs.States.{reading};
ghost use Rattle.spec_table.specs.Check.{is_table};
ghost use Rattle.spec_places.specs.Storage.{lent};
ghost use Rattle.abi_reading.specs.Answers.{Sets};

#[unsafe(no_mangle)]
pub extern "C" fn hrazvanut_abi_set(
    places: &mut [u8],
    states: &mut [u8],
    values: &mut [f64],
    table: &[u8],
    group: &[u8],
    letter: u32,
    state: u8,
    value: f64,
    changed: &mut [u64],
) -> u64
    ensures { Sets (lent table.now places.old states.old values.old)
        group.now letter (reading state value)
        (lent table.now places.new states.new values.new) changed.old changed.new result }
{
    let x = calc_readings::reading(state, value);
    let c = reading::set(places, states, values, table, group, letter, x);
    api_register::tell_changed(c, changed)
}

// Asks of its caller: hrazvanut_abi_is_table has said 1 of the same bytes, or an accepted load left them.
#[unsafe(no_mangle)]
pub extern "C" fn hrazvanut_abi_set_checked(
    places: &mut [u8],
    states: &mut [u8],
    values: &mut [f64],
    table: &[u8],
    group: &[u8],
    letter: u32,
    state: u8,
    value: f64,
    changed: &mut [u64],
) -> u64
    requires { is_table table.now ≡ true }
    ensures { Sets (lent table.now places.old states.old values.old)
        group.now letter (reading state value)
        (lent table.now places.new states.new values.new) changed.old changed.new result }
{
    let x = calc_readings::reading(state, value);
    let c = reg_set::set_checked(places, states, values, table, group, letter, x);
    api_register::tell_changed(c, changed)
}
