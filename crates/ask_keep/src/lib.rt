// An access group's decision in two parts, as bytes: which of its rules stand for a client, and what their calculations come to.
#![tactic(auto)]

ghost use Rattle.std.specs.Prelude.{◌≡◌, ◌+◌, ◌≤◌, length};
ghost use Rattle.std.proofs.lemmas.List.Edits.{sets};
ghost use Rattle.spec_rule.specs.Kept.{outcome_byte};
ghost use Rattle.spec_file.specs.Limit.{access_groups, rules, most};
ghost use Rattle.table_read.specs.Stored.{Stored};
ghost use Rattle.ask_kept.specs.Kept.{client_bits, Calculated};

use ask_checked::RULES;
use ask_roles::{Roles, User};
use ask_rule::Client;
use calc_inputs::Inputs;
use spec_rule::Outcome;
use table_read::Section;

// Keeps which rules of an access group stand for a client: a byte for each, in order. Inner: a caller knows the group from a search in a checked
// table, and lends room for the 256 rules that a table has at most.
pub fn keep(
    table: &[u8],
    group: usize,
    user: &[u8],
    host: &[u8],
    level: usize,
    kept: &mut [u8],
    at: usize,
)
    requires { Stored table.now access_groups group × (at + most rules ≤ length kept.old) }
    ensures { kept.new ≡ sets kept.old at (client_bits table.now group user.now host.now level) }
{
    // A client of a register has no roles.
    let roles = Roles {
        pool: b"",
        lengths: b"",
    };
    let user = User { name: user, roles };
    let client = Client { user, host, level };
    let rules = table_read::run(table, Section::AccessGroups, group, RULES);
    for i in 0..rules.len() {
        kept[at + i] = u8::from(client.stands(table, rules.start + i));
    }
}

// What a calculation comes to, as a byte.
// Stays: no From, as an impl would stand in spec_rule with Outcome, and crates spec_* hold definitions alone (docs/ARCHITECTURE.md).
fn byte_of(o: Outcome) -> u8
    ensures { result ≡ outcome_byte o }
{
    match o {
        Outcome::True => 1,
        Outcome::Stopped(i) if i <= 20 => i + 2,
        _ => 0,
    }
}

// Writes what the calculations come to: a byte for each rule of an access group, in order. Inner: a caller knows the group as for
// keep.
pub fn calculate(table: &[u8], group: usize, inputs: &Inputs, outcomes: &mut [u8; 256])
    requires { Stored table.now access_groups group }
    ensures { Calculated table.now group inputs.now outcomes.old outcomes.new }
{
    let rules = table_read::run(table, Section::AccessGroups, group, RULES);
    for i in 0..rules.len() {
        let outcome = ask_rule::calculation_outcome(table, rules.start + i, inputs);
        outcomes[i] = byte_of(outcome);
    }
}
