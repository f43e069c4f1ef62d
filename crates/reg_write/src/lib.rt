// Writing into a register's places: a client, what is kept of it, and a place made free.
#![tactic(auto)]

ghost use Rattle.std.specs.Prelude.{◌≡◌, ◌∷◌, ◌+◌, ◌≤◌, length, take};
ghost use Rattle.std.proofs.lemmas.List.Edits.{sets};
ghost use Rattle.spec_places.specs.Storage.{at_place, kept_at, client_bytes};
ghost use Rattle.spec_places.specs.Writing.{freed};
ghost use Rattle.spec_places.proofs.laws.Fits.{Fits};
ghost use Rattle.reg_bytes.specs.Placed.{Placed, client_lent};
ghost use Rattle.reg_write.specs.Head.{head_bytes};

use reg_bytes::{Client, NAMES, NUMBER, PLACE_BYTES, RIGHT};

// A client's five bytes before its names.
fn put_head(places: &mut [u8], at: usize, c: Client)
    requires at_in_bounds { at + 5 ≤ length places.old }
    requires fits { Fits (client_lent c) }
    ensures { places.new ≡ sets places.old at (head_bytes (client_lent c.entry)) }
{
    places[at] = 1;
    places[at + 1] = c.level as u8;
    places[at + 2] = c.group.len() as u8;
    places[at + 3] = c.user.len() as u8;
    places[at + 4] = c.host.len() as u8;
}

// A client into its place. Inner: reg_enter calls it, with names and a level that it has compared.
pub fn put_client(places: &mut [u8], p: usize, c: Client)
    requires placed { Placed places.old p }
    requires fits { Fits (client_lent c) }
    ensures { places.new ≡ sets places.old (at_place p) (client_bytes (client_lent c.entry)) }
{
    let at = p * PLACE_BYTES;
    put_head(places, at, c);
    let user = byte_write::put_text(places, at + NAMES, c.group, false);
    let host = byte_write::put_text(places, user, c.user, false);
    byte_write::put_text(places, host, c.host, false);
}

// What is kept of a client. Inner: reg_enter and reg_settle call it, with what reg_kept has made.
pub fn put_kept(places: &mut [u8], p: usize, number: u8, right: u8, flags: &[u8], count: usize)
    requires placed { Placed places.old p }
    requires count_in_bounds { (count ≤ length flags.now) × (count ≤ 256) }
    ensures { places.new ≡ sets places.old (kept_at p) (number ∷ right ∷ take count flags.now) }
{
    let at = p * PLACE_BYTES + NUMBER;
    places[at] = number;
    places[at + 1] = right;
    byte_write::put_text(places, at + 2, &flags[..count], false);
}

// A place made free. Inner: reg_enter calls it, with a place that has a client.
pub fn free(places: &mut [u8], p: usize)
    requires { Placed places.old p }
    ensures { places.new ≡ freed places.old p }
{
    let at = p * PLACE_BYTES;
    places[at] = 0;
    places[at + NUMBER] = 0;
    places[at + RIGHT] = 0;
}
