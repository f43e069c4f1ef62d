// A decision as a number, as a register's place keeps it and as it goes to callers in C; and back.
// Stays: no From, as impls would stand in spec_rule with Decision, Stop and Access, and crates spec_* hold definitions alone (docs/ARCHITECTURE.md).
#![tactic(auto)]

ghost use Rattle.std.specs.Prelude.{◌≡◌};
ghost use Rattle.spec_rule.specs.Number.{letter_number, decision_number, access_from, letter_from, decision_from};

use spec_rule::{Access, Decision, Stop};

// None is 0, A is 1, U is 21.
pub fn letter_number(s: Stop) -> u8
    ensures { result ≡ letter_number s }
{
    match s {
        Stop::Letter(i) if i <= 20 => i + 1,
        _ => 0,
    }
}

// The access in bits 0 and 1, the trap in bit 2, the letter above them.
pub fn number(d: Decision) -> u8
    ensures { result ≡ decision_number d }
{
    d.access as u8 + 4 * u8::from(d.trap) + 8 * letter_number(d.letter)
}

fn access_from(n: u8) -> Access
    ensures { result ≡ access_from n }
{
    match n {
        1 => Access::Read,
        2 => Access::Write,
        _ => Access::None,
    }
}

fn letter_from(n: u8) -> Stop
    ensures { result ≡ letter_from n }
{
    match n {
        1..=21 => Stop::Letter(n - 1),
        _ => Stop::Nothing,
    }
}

// The decision that any byte stands for.
pub fn from_number(n: u8) -> Decision
    ensures { result ≡ decision_from n }
{
    Decision {
        access: access_from(n % 4),
        trap: n / 4 % 2 != 0,
        letter: letter_from(n / 8),
    }
}
