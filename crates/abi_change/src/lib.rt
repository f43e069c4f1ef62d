// The library's functions for C that change a register's client. include/hrazvanut.h calls them.
#![tactic(auto)]

ghost use Rattle.std.specs.Prelude.{◌≡◌, true};
ghost use Rattle.spec_table.specs.Check.{is_table};
ghost use Rattle.spec_register.specs.Register.{client_of};
ghost use Rattle.spec_places.specs.Storage.{lent};
ghost use Rattle.abi_change.specs.Answers.{Changes};

use reg_bytes::Client;

#[unsafe(no_mangle)]
pub extern "C" fn hrazvanut_abi_change(
    places: &mut [u8],
    states: &[u8],
    values: &[f64],
    table: &[u8],
    p: usize,
    group: &[u8],
    user: &[u8],
    host: &[u8],
    level: u32,
    changed: &mut [u64],
) -> u64
    ensures { Changes (lent table.now places.old states.now values.now) p
        (client_of group.now level user.now host.now) places.new changed.old changed.new result }
{
    let c = register::change(places, states, values, table, p, group, user, host, level);
    api_register::tell_changed(c, changed)
}

// Asks of its caller: hrazvanut_abi_is_table has said 1 of the same bytes, or an accepted load left them.
#[unsafe(no_mangle)]
pub extern "C" fn hrazvanut_abi_change_checked(
    places: &mut [u8],
    states: &[u8],
    values: &[f64],
    table: &[u8],
    p: usize,
    group: &[u8],
    user: &[u8],
    host: &[u8],
    level: u32,
    changed: &mut [u64],
) -> u64
    requires { is_table table.now ≡ true }
    ensures { Changes (lent table.now places.old states.now values.now) p
        (client_of group.now level user.now host.now) places.new changed.old changed.new result }
{
    let client = Client {
        group,
        user,
        host,
        level,
    };
    let c = reg_checked::change_checked(places, states, values, table, p, client);
    api_register::tell_changed(c, changed)
}
