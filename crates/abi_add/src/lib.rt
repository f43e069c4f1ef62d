// The library's functions for C that add a client to a register. include/hrazvanut.h calls them.
#![tactic(auto)]

ghost use Rattle.std.specs.Prelude.{◌≡◌, true};
ghost use Rattle.spec_table.specs.Check.{is_table};
ghost use Rattle.spec_register.specs.Register.{client_of};
ghost use Rattle.spec_places.specs.Storage.{lent};
ghost use Rattle.abi_add.specs.Answers.{Adds};

use reg_bytes::Client;

#[unsafe(no_mangle)]
pub extern "C" fn hrazvanut_abi_add(
    places: &mut [u8],
    states: &[u8],
    values: &[f64],
    table: &[u8],
    group: &[u8],
    user: &[u8],
    host: &[u8],
    level: u32,
    changed: &mut [u64],
) -> u64
    ensures { Adds (lent table.now places.old states.now values.now)
        (client_of group.now level user.now host.now) places.new changed.old changed.new result }
{
    let a = register::add(places, states, values, table, group, user, host, level);
    api_register::tell_added(a, changed)
}

// Asks of its caller: hrazvanut_abi_is_table has said 1 of the same bytes, or an accepted load left them.
#[unsafe(no_mangle)]
pub extern "C" fn hrazvanut_abi_add_checked(
    places: &mut [u8],
    states: &[u8],
    values: &[f64],
    table: &[u8],
    group: &[u8],
    user: &[u8],
    host: &[u8],
    level: u32,
    changed: &mut [u64],
) -> u64
    requires { is_table table.now ≡ true }
    ensures { Adds (lent table.now places.old states.now values.now)
        (client_of group.now level user.now host.now) places.new changed.old changed.new result }
{
    let c = Client {
        group,
        user,
        host,
        level,
    };
    let a = reg_checked::add_checked(places, states, values, table, c);
    api_register::tell_added(a, changed)
}
