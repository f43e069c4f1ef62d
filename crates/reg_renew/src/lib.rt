// Rights renewed after a reading: of each place that an access group answers for, by what is kept there.
#![tactic(auto)]

ghost use Rattle.std.specs.Prelude.{◌≡◌, ◌≤◌, length};
ghost use Rattle.spec_file.specs.Limit.{access_groups, rules, most};
ghost use Rattle.table_read.specs.Stored.{Stored};
ghost use Rattle.reg_bytes.specs.Placed.{Placed};
ghost use Rattle.reg_renew.specs.Renew.{RenewsPlace, RenewsAll};

use reg_bytes::{FLAGS, PLACE_BYTES, PLACES, RIGHT};

// Renews the right of one place, and says by a bit whether it has changed. A place that another group answers for costs one look at a byte.
fn renew_place(places: &mut [u8], p: usize, table: &[u8], group: usize, outcomes: &[u8; 256]) -> u64
    requires placed { Placed places.old p }
    requires stored { Stored table.now access_groups group × (most rules ≤ length outcomes.now) }
    ensures { RenewsPlace table.now group outcomes.now p places.old places.new result }
{
    if usize::from(reg_bytes::number(places, p)) != group + 1 {
        return 0;
    }
    let before = reg_bytes::right(places, p);
    let at = p * PLACE_BYTES + FLAGS;
    let after = ask_number::number(ask_kept::kept_decision(table, group, places, at, outcomes));
    places[p * PLACE_BYTES + RIGHT] = after;
    reg_right::changed(before, after)
}

// Renews the rights of all places that an access group answers for, by what its calculations come to. Inner: reg_group calls it.
pub fn renew_by(places: &mut [u8], table: &[u8], group: usize, outcomes: &[u8; 256]) -> u64
    requires placed { Placed places.old 0 }
    requires stored { Stored table.now access_groups group × (most rules ≤ length outcomes.now) }
    ensures { RenewsAll table.now group outcomes.now places.old places.new result }
{
    let mut m: u64 = 0;
    for p in (0..PLACES).rev() {
        m = renew_place(places, p, table, group, outcomes) + 2 * m;
    }
    m
}
