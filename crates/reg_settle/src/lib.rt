// Rights settled after a load: of each client anew by the new table, no reading heard.
#![tactic(auto)]

ghost use Rattle.std.specs.Prelude.{◌≡◌, true};
ghost use Rattle.spec_table.specs.Check.{is_table};
ghost use Rattle.reg_bytes.specs.Placed.{Placed};
ghost use Rattle.reg_kept.specs.Kept.{Keeps};
ghost use Rattle.reg_settle.specs.Settle.{SettlesPlace, AllSettled, kept_here};

use reg_bytes::PLACES;
use reg_kept::Kept;

// What a place is to keep of its client by a table, no reading heard.
fn kept_here(places: &[u8], p: usize, table: &[u8]) -> Kept
    requires placed { Placed places.now p }
    requires table_value { is_table table.now ≡ true }
    ensures { Keeps (kept_here table.now places.now p) result }
{
    reg_kept::kept_checked(table, reg_bytes::client_at(places, p), &[], &[])
}

// Settles one place, and says by a bit whether its right has changed.
fn settle_place(places: &mut [u8], p: usize, table: &[u8]) -> u64
    requires placed { Placed places.old p }
    requires table_value { is_table table.now ≡ true }
    ensures { SettlesPlace table.now p places.old places.new result }
{
    if !reg_bytes::is_taken(places, p) {
        return 0;
    }
    let before = reg_bytes::right(places, p);
    let k = kept_here(places, p, table);
    let after = k.right;
    let flags = k.flags;
    reg_write::put_kept(places, p, k.number, after, &flags, k.count);
    reg_right::changed(before, after)
}

// Settles all places, and says by bits which rights have changed.
// Inner: reload calls it, with the bytes of an accepted load, and has asked for the places' length.
pub fn settle(places: &mut [u8], table: &[u8]) -> u64
    requires placed { Placed places.old 0 }
    requires table_value { is_table table.now ≡ true }
    ensures { AllSettled table.now places.old places.new result }
{
    let mut m: u64 = 0;
    for p in (0..PLACES).rev() {
        m = settle_place(places, p, table) + 2 * m;
    }
    m
}
