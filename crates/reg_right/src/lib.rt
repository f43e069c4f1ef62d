// Whether a right has changed, from the bytes that a place kept of it before and keeps after.
#![tactic(auto)]

ghost use Rattle.std.specs.Prelude.{◌≡◌};
ghost use Rattle.spec_rule.specs.Kept.{bit};
ghost use Rattle.spec_rule.specs.Number.{decision_from};
ghost use Rattle.spec_register.specs.Right.{differ};

// Bytes that stand for one right are alike: both are read before they are compared.
pub fn differ(before: u8, after: u8) -> bool
    ensures { result ≡ differ (decision_from before) (decision_from after) }
{
    let one = ask_number::number(ask_number::from_number(before));
    let other = ask_number::number(ask_number::from_number(after));
    one != other
}

// The same as a bit.
pub fn changed(before: u8, after: u8) -> u64
    ensures { result ≡ bit (differ (decision_from before) (decision_from after)) }
{
    u64::from(differ(before, after))
}
