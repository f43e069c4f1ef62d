// The answer to a question on a table that was checked before.
#![tactic(auto)]

ghost use Rattle.std.specs.Prelude.{◌≡◌, true};
ghost use Rattle.spec_rule.specs.Question.{lent_question};
ghost use Rattle.spec_file.specs.Limit.{access_groups};
ghost use Rattle.spec_table.specs.Check.{is_table};
ghost use Rattle.spec_decision.specs.Decision.{decide};
ghost use Rattle.table_read.specs.Stored.{Stored};
ghost use Rattle.ask_checked.specs.Group.{ByGroup};

use ask_roles::{Roles, User};
use ask_rule::Client;
use calc_inputs::Inputs;
use spec_calc::Reading;
use spec_decision::Answer;
use spec_rule::{Access, Decision, Stop};
use table_read::Section;

// The word of an access group at which the run of its rules begins.
pub const RULES: usize = 4;

// What the rules of an access group give: each is tried at most once.
fn decision_of_group(table: &[u8], group: usize, client: Client, inputs: &Inputs) -> Decision
    requires { Stored table.now access_groups group }
    ensures { ByGroup table.now group client.entry inputs.now result }
{
    let rules = table_read::run(table, Section::AccessGroups, group, RULES);
    let mut so_far = ask_verdict::nothing_given();
    for rule in rules.start..rules.end {
        so_far = ask_given::with_rule(table, rule, &client, inputs, so_far);
    }
    ask_verdict::settled(so_far)
}

// The answer to a question on a table that was checked before: only the answering group's rules are tried.
// Callers have asked is_table, or have the bytes of an accepted load (spec_demand/proofs/laws/Exact: leaves_table); others call ask::decide.
pub fn decide_checked(
    table: &[u8],
    group: &[u8],
    user: &[u8],
    host: &[u8],
    roles: &[u8],
    lengths: &[u8],
    level: u32,
    rs: [Reading; 21],
) -> Answer
    requires { is_table table.now ≡ true }
    ensures { result ≡ decide table.now (lent_question group.now user.now host.now roles.now lengths.now level rs) }
{
    if 1 < level {
        return Answer::BadLevel;
    }
    let roles = Roles {
        pool: roles,
        lengths,
    };
    if !ask_fit::fit(roles) {
        return Answer::BadRoles;
    }
    match table_find::answering_group(table, group) {
        None => Answer::Answered(Decision {
            access: Access::None,
            trap: false,
            letter: Stop::Nothing,
        }),
        Some(i) => {
            let client = Client {
                user: User { name: user, roles },
                host,
                level: level as usize,
            };
            let inputs = calc_inputs::inputs_of(rs);
            let d = decision_of_group(table, i, client, &inputs);
            Answer::Answered(d)
        }
    }
}
