// What one rule of a checked table asks of a question: members, level, calculation.
#![tactic(auto)]

ghost use Rattle.std.specs.Prelude.{◌≡◌, []};
ghost use Rattle.spec_rule.specs.Rule.{stands};
ghost use Rattle.spec_file.specs.Limit.{rules};
ghost use Rattle.table_read.specs.Stored.{Stored};
ghost use Rattle.ask_rule.specs.Rules.{rule_at, Calculates};

use ask_member::Name;
use ask_roles::User;
use calc_inputs::Inputs;
use spec_rule::Outcome;
use table_read::Section;

// The words of a rule: its flags, and where its calculation's run begins.
pub const FLAGS: usize = 0;

const CALCULATION: usize = 5;

// Who asks: a user at a host, for a field of a level.
#[derive(Clone, Copy)]
pub struct Client<'a> {
    pub user: User<'a>,
    pub host: &'a [u8],
    pub level: usize,
}

impl Client<'_> {
    ghost use Rattle.ask_rule.specs.Rules.{asked_by};

    // What a rule asks that does not depend on readings. Inner: the caller knows the rule from the run of its group.
    pub fn stands(&self, table: &[u8], rule: usize) -> bool
        requires { Stored table.now rules rule }
        ensures { result ≡ stands (asked_by self.now []) (rule_at table.now rule) }
    {
        let flags = table_read::field(table, Section::Rules, rule, FLAGS);
        if ask_grant::is_set(flags / 16) {
            return false; // switched off
        }
        self.level <= flags % 2
            && Name::User(&self.user).belongs_to(table, rule)
            && Name::Host(self.host).belongs_to(table, rule)
    }
}

// What a rule's calculation comes to: true if it has none. Inner: the caller knows the rule from the run of its group.
pub fn calculation_outcome(table: &[u8], rule: usize, inputs: &Inputs) -> Outcome
    requires { Stored table.now rules rule }
    ensures { Calculates table.now rule inputs.now result }
{
    if table_read::run(table, Section::Rules, rule, CALCULATION).end == 0 {
        return Outcome::True;
    }
    let text = table_read::name_of(table, Section::Rules, rule);
    calc_truth::outcome_with(text, inputs)
}
