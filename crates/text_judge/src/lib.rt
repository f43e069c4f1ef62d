// Whether a checked table has no text: a string that cannot be quoted, or a text that a load would refuse.
#![tactic(auto)]

ghost use Rattle.std.specs.Prelude.{◌≡◌, true, ◌-◌, ◌≤◌, length};
ghost use Rattle.spec_lists.specs.Select.{any};
ghost use Rattle.spec_file.specs.Limit.{access_groups, rules, references};
ghost use Rattle.spec_table.specs.View.{view};
ghost use Rattle.spec_table.specs.Check.{is_table};
ghost use Rattle.spec_text.specs.Faults.{nowhere_defined, asg_faulty, defines_nothing, faulty};
ghost use Rattle.spec_export.specs.Says.{names_in, file_in};
ghost use Rattle.spec_export.specs.Unwritable.{unwritable};
ghost use Rattle.table_read.specs.Stored.{section, Stored};
ghost use Rattle.text_judge.specs.Judged.{groups_in, asg_at, RuleJudged, RulesJudged};

use std::ops::Range;
use table_read::Section;

// Whether one of some references names a group that is not defined. It goes by the names: a number does not count in a text.
fn some_undefined(table: &[u8], s: Section, mut records: Range<usize>) -> bool
    requires { (is_table table.now ≡ true) × (records.end ≤ length ((view table.now).records references)) }
    ensures { result ≡ any (nowhere_defined (groups_in table.now (section s))) (names_in (view table.now) (record { first = records.start; count = records.end - records.start })) }
{
    // A load would refuse the name.
    records.any(|i| {
        !text_names::has_name(table, s, table_read::name_of(table, Section::References, i))
    })
}

// Whether a rule names an undefined group, or has a letter in its calculation that is not given.
fn rule_faulty(table: &[u8], rule: usize, given: &[bool; 21]) -> bool
    requires { Stored table.now rules rule }
    ensures { RuleJudged table.now rule given.now result }
{
    let users = table_read::run(table, Section::Rules, rule, 1);
    let hosts = table_read::run(table, Section::Rules, rule, 3);
    some_undefined(table, Section::UserGroups, users)
        || some_undefined(table, Section::HostGroups, hosts)
        || text_letters::letter_missing(table, rule, given)
}

// Whether one of an access group's rules is faulty.
fn rules_faulty(table: &[u8], group: usize, given: &[bool; 21]) -> bool
    requires { Stored table.now access_groups group }
    ensures { RulesJudged table.now group given.now result }
{
    table_read::run(table, Section::AccessGroups, group, 4).any(|i| rule_faulty(table, i, given))
}

// Whether an access group gives a letter twice, or has a faulty rule.
fn group_faulty(table: &[u8], group: usize) -> bool
    requires { Stored table.now access_groups group }
    ensures { result ≡ asg_faulty (file_in (view table.now)) (asg_at table.now group) }
{
    text_letters::letter_repeated(table, group)
        || rules_faulty(table, group, &text_letters::letters_of(table, group))
}

fn groups_faulty(table: &[u8]) -> bool
    requires { is_table table.now ≡ true }
    ensures { result ≡ any (asg_faulty (file_in (view table.now))) (file_in (view table.now)).asgs }
{
    let n = table_read::count(table, Section::AccessGroups);
    (0..n).any(|i| group_faulty(table, i))
}

// Whether a table has no groups: an empty text is no file.
fn is_empty(table: &[u8]) -> bool
    requires { is_table table.now ≡ true }
    ensures { result ≡ defines_nothing (file_in (view table.now)) }
{
    table_read::count(table, Section::UserGroups) == 0
        && table_read::count(table, Section::HostGroups) == 0
        && table_read::count(table, Section::AccessGroups) == 0
}

// Whether the text of a table has a cause for a refusal, its strings aside.
#[tactic(auto, using(crate::specs::laws::Judged::groups_again, crate::specs::laws::Judged::asgs_again))]
fn is_faulty(table: &[u8]) -> bool
    requires { is_table table.now ≡ true }
    ensures { result ≡ faulty (file_in (view table.now)) }
{
    is_empty(table)
        || text_names::name_repeated(table, Section::UserGroups)
        || text_names::name_repeated(table, Section::HostGroups)
        || text_names::name_repeated(table, Section::AccessGroups)
        || groups_faulty(table)
}

// Whether a table is refused with 27. It never runs the loader: the time grows with the table, and with the searches for names.
// Inner: text calls it, of a checked table.
pub fn unwritable(table: &[u8]) -> bool
    requires { is_table table.now ≡ true }
    ensures { result ≡ unwritable (view table.now) }
{
    !text_names::strings_quotable(table) || is_faulty(table)
}
