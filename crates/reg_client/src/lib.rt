// A client entered into its place, with what a table keeps for it.
#![tactic(auto)]

ghost use Rattle.std.specs.Prelude.{◌≡◌, true};
ghost use Rattle.spec_table.specs.Check.{is_table};
ghost use Rattle.spec_places.specs.Storage.{readings_in};
ghost use Rattle.spec_places.specs.Writing.{entered};
ghost use Rattle.spec_places.proofs.laws.Fits.{Fits};
ghost use Rattle.reg_bytes.specs.Placed.{Placed, client_lent};
ghost use Rattle.reg_enter.specs.Entered.{Left};

use reg_bytes::Client;

// A client over a table that was checked. Inner: reg_checked calls it, with a place that reg_refuse has given.
pub fn enter_checked(
    places: &mut [u8],
    states: &[u8],
    values: &[f64],
    table: &[u8],
    p: usize,
    c: Client,
) -> u64
    requires table_value { is_table table.now ≡ true }
    requires placed { Placed places.old p }
    requires fits { Fits (client_lent c) }
    ensures { Left
        places.old
        (entered table.now (readings_in states.now values.now) places.old p (client_lent c.entry))
        places.new
        result }
{
    let k = reg_kept::kept_checked(table, c, states, values);
    reg_enter::enter_kept(places, p, c, k)
}

// A client over any bytes. Inner: register calls it, with a place that reg_refuse has given.
pub fn enter(
    places: &mut [u8],
    states: &[u8],
    values: &[f64],
    table: &[u8],
    p: usize,
    c: Client,
) -> u64
    requires placed { Placed places.old p }
    requires fits { Fits (client_lent c) }
    ensures { Left
        places.old
        (entered table.now (readings_in states.now values.now) places.old p (client_lent c.entry))
        places.new
        result }
{
    if table::is_table(table) {
        return enter_checked(places, states, values, table, p, c);
    }
    reg_enter::enter_kept(places, p, c, reg_kept::nothing_kept())
}
