// What rules give one by one, and the decision in the end.
#![tactic(auto)]

ghost use Rattle.std.specs.Prelude.{◌≡◌};
ghost use Rattle.spec_rule.specs.Rule.{stop_above, or_else};
ghost use Rattle.spec_rule.specs.Verdict.{nothing_given, by_outcome, then, normal, normal_by, settled};

use spec_rule::{Access, Decision, Outcome, Stop, Verdict};

// No rule yet.
pub fn nothing_given() -> Verdict
    ensures { result ≡ nothing_given }
{
    Verdict {
        access: Access::None,
        trap: false,
        low: Stop::Nothing,
        high: Stop::Nothing,
    }
}

// Stops that the access has passed are forgotten.
fn normal(access: Access, trap: bool, low: Stop, high: Stop) -> Verdict
    ensures { result ≡ normal_by access trap low high }
{
    match access {
        Access::None => Verdict {
            access,
            trap: false,
            low,
            high,
        },
        Access::Read => Verdict {
            access,
            trap: false,
            low: Stop::Nothing,
            high,
        },
        Access::Write => Verdict {
            access,
            trap,
            low: Stop::Nothing,
            high: Stop::Nothing,
        },
    }
}

// The first of two stops.
// Stays: Stop is no Option, as the theorems of spec_demand and the definitions of spec_rule are stated with it.
fn or_else(a: Stop, b: Stop) -> Stop
    ensures { result ≡ or_else a b }
{
    match a {
        Stop::Nothing => b,
        Stop::Letter(_) => a,
    }
}

// The stop of a rule, if its permission is above READ.
fn above_read(permission: Access, letter: u8) -> Stop
    ensures { result ≡ stop_above Access.Read permission (Outcome.Stopped letter) }
{
    if Access::Read < permission {
        Stop::Letter(letter)
    } else {
        Stop::Nothing
    }
}

// What earlier rules and one more give that stands: it offers a decision, and its calculation comes to an outcome. The greater access, of equals the
// first; and the first stops above NONE and above READ, as far as the access has not passed them.
// Inner: callers begin with nothing_given and go on with what this gives, in which what the access has passed is forgotten already.
pub fn with_outcome(earlier: Verdict, offered: Decision, outcome: Outcome) -> Verdict
    ensures { normal earlier ≡ earlier → result ≡ normal (then earlier (by_outcome outcome offered)) }
{
    if offered.access <= earlier.access {
        return earlier;
    }
    match outcome {
        Outcome::True => normal(offered.access, offered.trap, earlier.low, earlier.high),
        Outcome::False => earlier,
        Outcome::Stopped(i) => {
            let low = or_else(earlier.low, Stop::Letter(i));
            let high = or_else(earlier.high, above_read(offered.access, i));
            normal(earlier.access, earlier.trap, low, high)
        }
    }
}

// The decision, where there are no more rules.
pub fn settled(v: Verdict) -> Decision
    ensures { result ≡ settled v }
{
    Decision {
        access: v.access,
        trap: v.trap && v.access == Access::Write,
        letter: match v.access {
            Access::None => v.low,
            Access::Read => v.high,
            Access::Write => Stop::Nothing,
        },
    }
}
