// A client entered into its place, or a place made free, and whether its right has changed by that.
#![tactic(auto)]

ghost use Rattle.std.specs.Prelude.{◌≡◌, ◌*◌, ◌<◌, ◌^◌};
ghost use Rattle.spec_rule.specs.Kept.{bit};
ghost use Rattle.spec_register.specs.Register.{most_clients};
ghost use Rattle.spec_register.specs.Right.{differ};
ghost use Rattle.spec_rule.specs.Number.{decision_from};
ghost use Rattle.spec_places.specs.Writing.{freed};
ghost use Rattle.spec_places.proofs.laws.Fits.{Fits};
ghost use Rattle.reg_bytes.specs.Placed.{Placed, client_lent};
ghost use Rattle.reg_kept.specs.Kept.{kept_bytes, Keeps};
ghost use Rattle.reg_enter.specs.Entered.{Enters, Left};

use reg_bytes::Client;
use reg_kept::Kept;

// The bit of a place whose right's code was before and is after.
fn changed_bit(p: usize, before: u8, after: u8) -> u64
    requires { p < most_clients }
    ensures { result ≡ bit (differ (decision_from before) (decision_from after)) * 2 ^ p }
{
    if reg_right::differ(before, after) {
        1u64 << p
    } else {
        0
    }
}

// A client and what is kept of it. Inner: reg_client calls it, with a place that reg_refuse has given.
pub fn enter_kept(places: &mut [u8], p: usize, c: Client, k: Kept) -> u64
    requires placed { Placed places.old p }
    requires fits { Fits (client_lent c) }
    requires keeps { Keeps (kept_bytes k) k }
    ensures { Enters places.old p (client_lent c.entry) (kept_bytes k) places.new result }
{
    let before = reg_bytes::right(places, p);
    let after = k.right;
    let flags = k.flags;
    reg_write::put_client(places, p, c);
    reg_write::put_kept(places, p, k.number, after, &flags, k.count);
    changed_bit(p, before, after)
}

// A place made free. Inner: place calls it, with a place that reg_refuse has given.
pub fn free(places: &mut [u8], p: usize) -> u64
    requires { Placed places.old p }
    ensures { Left places.old (freed places.old p) places.new result }
{
    let before = reg_bytes::right(places, p);
    reg_write::free(places, p);
    changed_bit(p, before, 0)
}
