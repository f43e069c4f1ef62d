// An access group's decision by two bytes of each of its rules: whether it stands for a client, and what its calculation comes to.
#![tactic(auto)]

ghost use Rattle.std.specs.Prelude.{◌≡◌, ◌+◌, ◌≤◌, length};
ghost use Rattle.spec_rule.specs.Kept.{byte_outcome};
ghost use Rattle.spec_file.specs.Limit.{access_groups, rules, most};
ghost use Rattle.table_read.specs.Stored.{Stored};
ghost use Rattle.ask_kept.specs.Kept.{decision_kept, WithKept};

use ask_checked::RULES;
use ask_rule::FLAGS;
use spec_rule::{Decision, Outcome, Verdict};
use table_read::Section;

// Stays: no From, as an impl would stand in spec_rule with Outcome, and crates spec_* hold definitions alone (docs/ARCHITECTURE.md).
fn outcome_of(n: u8) -> Outcome
    ensures { result ≡ byte_outcome n }
{
    match n {
        1 => Outcome::True,
        2..=22 => Outcome::Stopped(n - 2),
        _ => Outcome::False,
    }
}

// What earlier rules and one more give, by its kept byte and the byte of what its calculation comes to.
fn with_kept(table: &[u8], rule: usize, k: u8, o: u8, earlier: Verdict) -> Verdict
    requires { Stored table.now rules rule }
    ensures { WithKept table.now rule k o earlier result }
{
    if k == 0 {
        return earlier; // does not stand
    }
    let offered = ask_grant::granted_by(table_read::field(table, Section::Rules, rule, FLAGS));
    ask_verdict::with_outcome(earlier, offered, outcome_of(o))
}

// What the rules of an access group give, by both bytes of each: no member is compared, no calculation run.
// Inner: a caller knows the group and has kept bytes as for ask_keep::keep, and has 256 outcomes, as ask_keep::calculate leaves them.
pub fn kept_decision(
    table: &[u8],
    group: usize,
    kept: &[u8],
    at: usize,
    outcomes: &[u8; 256],
) -> Decision
    requires { Stored table.now access_groups group × (at + most rules ≤ length kept.now) × (most rules ≤ length outcomes.now) }
    ensures { result ≡ decision_kept table.now group kept.now at outcomes.now }
{
    let rules = table_read::run(table, Section::AccessGroups, group, RULES);
    let mut so_far = ask_verdict::nothing_given();
    for i in 0..rules.len() {
        so_far = with_kept(table, rules.start + i, kept[at + i], outcomes[i], so_far);
    }
    ask_verdict::settled(so_far)
}
