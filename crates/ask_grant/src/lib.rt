// What a rule's flags give if it passes.
#![tactic(auto)]

ghost use Rattle.std.specs.Prelude.{◌≡◌};
ghost use Rattle.spec_rule.specs.Decision.{with_trap};
ghost use Rattle.spec_table.specs.Policy.{permission, set_bit};
ghost use Rattle.ask_grant.specs.Flags.{flagged};

use spec_rule::{Access, Decision, Stop};

// Whether a bit of the flags is set.
pub fn is_set(n: usize) -> bool
    ensures { result ≡ set_bit n }
{
    n != 0
}

// Stays: no From, as an impl would stand in spec_rule with Access, and crates spec_* hold definitions alone (docs/ARCHITECTURE.md).
fn permission_of(n: usize) -> Access
    ensures { result ≡ permission n }
{
    match n {
        0 => Access::None,
        1 => Access::Read,
        _ => Access::Write,
    }
}

// A decision that no letter stops.
pub fn decision(access: Access, trap: bool) -> Decision
    ensures { result ≡ with_trap access trap }
{
    Decision {
        access,
        trap,
        letter: Stop::Nothing,
    }
}

// What a rule of these flags gives if it passes: the trap counts only with WRITE.
pub fn granted_by(flags: usize) -> Decision
    ensures { result ≡ flagged flags }
{
    let access = permission_of(flags / 2 % 4);
    let trap = is_set(flags / 8 % 2);
    decision(access, trap && access == Access::Write)
}
