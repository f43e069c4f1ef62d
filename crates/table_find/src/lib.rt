// Searches in a checked table: an access group by its name, the answering group, an input.
#![tactic(auto)]

ghost use Rattle.std.specs.Prelude.{◌≡◌, true};
ghost use Rattle.spec_file.specs.Limit.{access_groups};
ghost use Rattle.spec_table.specs.Check.{is_table};
ghost use Rattle.spec_decision.specs.Groups.{answering_number};
ghost use Rattle.table_read.specs.Stored.{Stored};
ghost use Rattle.table_read.specs.Search.{index_of, number_named, number_full, FindsInput};

use table_read::{Section, count, field, name_of};

// The first access group of a name; DEFAULT does not stand in for one that is missing. Inner: callers have a checked table.
fn first_named(table: &[u8], group: &[u8]) -> Option<usize>
    requires { is_table table.now ≡ true }
    ensures { result ≡ index_of (number_named table.now group.now) }
{
    let n = count(table, Section::AccessGroups);
    (0..n).find(|&i| byte_compare::equal(name_of(table, Section::AccessGroups, i), group))
}

// The access group of a name; the empty name is DEFAULT's. Inner: of a checked table, to set a reading of that group.
pub fn group_named(table: &[u8], group: &[u8]) -> Option<usize>
    requires { is_table table.now ≡ true }
    ensures { result ≡ index_of (number_full table.now group.now) }
{
    first_named(table, if group.is_empty() { b"DEFAULT" } else { group })
}

// The access group that answers for a name. Inner: ask_checked and ask_input call it, of a checked table.
pub fn answering_group(table: &[u8], group: &[u8]) -> Option<usize>
    requires { is_table table.now ≡ true }
    ensures { result ≡ index_of (answering_number table.now group.now) }
{
    group_named(table, group).or_else(|| first_named(table, b"DEFAULT"))
}

// The first input of an access group that has the letter. Inner: ask_input calls it, with the answering group.
pub fn first_input(table: &[u8], group: usize, letter: usize) -> Option<usize>
    requires { Stored table.now access_groups group }
    ensures { FindsInput table.now group letter result }
{
    let start = field(table, Section::AccessGroups, group, 2);
    let n = field(table, Section::AccessGroups, group, 3);
    (start..start + n).find(|&i| field(table, Section::Inputs, i, 0) == letter)
}
