// What one rule of a checked table gives behind others.
#![tactic(auto)]

ghost use Rattle.spec_file.specs.Limit.{rules};
ghost use Rattle.table_read.specs.Stored.{Stored};
ghost use Rattle.ask_rule.specs.Rules.{WithRule};

use ask_rule::{Client, FLAGS, calculation_outcome};
use calc_inputs::Inputs;
use spec_rule::Verdict;
use table_read::Section;

// What earlier rules and one more give. A rule that can give no more is not tried: nor is its letter wanted, for it is not above the access.
// Inner: the caller knows the rule from the run of its group.
pub fn with_rule(
    table: &[u8],
    rule: usize,
    client: &Client,
    inputs: &Inputs,
    earlier: Verdict,
) -> Verdict
    requires { Stored table.now rules rule }
    ensures { WithRule table.now rule client.now inputs.now earlier result }
{
    let offered = ask_grant::granted_by(table_read::field(table, Section::Rules, rule, FLAGS));
    if offered.access <= earlier.access {
        return earlier; // can give no more
    }
    if !client.stands(table, rule) {
        return earlier; // fails by user, host or level, or is switched off
    }
    let outcome = calculation_outcome(table, rule, inputs);
    ask_verdict::with_outcome(earlier, offered, outcome)
}
