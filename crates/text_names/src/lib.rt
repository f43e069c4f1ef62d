// The names in a checked table's sections: whether they can be quoted, stand twice, or stand at all.
#![tactic(auto)]

ghost use Rattle.std.specs.Prelude.{◌≡◌, true, ◌+◌, drop};
ghost use Rattle.spec_lists.specs.Text.{same};
ghost use Rattle.spec_lists.specs.Select.{all, any};
ghost use Rattle.spec_table.specs.View.{view};
ghost use Rattle.spec_table.specs.Check.{is_table};
ghost use Rattle.spec_text.specs.Faults.{quotable, repeated};
ghost use Rattle.spec_export.specs.Unwritable.{strings_in};
ghost use Rattle.table_read.specs.Stored.{section, Stored};
ghost use Rattle.text_names.specs.Names.{names, name_at};

use table_read::Section;

// Whether every name of a section can be quoted.
fn names_quotable(table: &[u8], s: Section) -> bool
    requires { is_table table.now ≡ true }
    ensures { result ≡ all quotable (names table.now (section s)) }
{
    let n = table_read::count(table, s);
    (0..n).all(|i| text_quote::quotable(table_read::name_of(table, s, i)))
}

// Whether every string of a table can be quoted. Inner: text_judge calls it, of a checked table.
pub fn strings_quotable(table: &[u8]) -> bool
    requires { is_table table.now ≡ true }
    ensures { result ≡ all quotable (strings_in (view table.now)) }
{
    names_quotable(table, Section::UserGroups)
        && names_quotable(table, Section::HostGroups)
        && names_quotable(table, Section::Members)
        && names_quotable(table, Section::AccessGroups)
        && names_quotable(table, Section::Inputs)
        && names_quotable(table, Section::Rules)
        && names_quotable(table, Section::References)
}

// Whether a record of a section, from the k-th on, has a name.
fn name_from(table: &[u8], s: Section, k: usize, name: &[u8]) -> bool
    requires { is_table table.now ≡ true }
    ensures { result ≡ any (λ x. same x name.now) (drop k (names table.now (section s))) }
{
    let n = table_read::count(table, s);
    (k..n).any(|i| byte_compare::equal(table_read::name_of(table, s, i), name))
}

// Whether two records of a section have one name. Inner: text_judge calls it, of a checked table.
pub fn name_repeated(table: &[u8], s: Section) -> bool
    requires { is_table table.now ≡ true }
    ensures { result ≡ repeated same (names table.now (section s)) }
{
    let n = table_read::count(table, s);
    (0..n).any(|i| name_from(table, s, i + 1, table_read::name_of(table, s, i)))
}

// Whether a record of a section has a name. Inner: text_judge calls it, of a checked table.
pub fn has_name(table: &[u8], s: Section, name: &[u8]) -> bool
    requires { is_table table.now ≡ true }
    ensures { result ≡ any (λ x. same x name.now) (names table.now (section s)) }
{
    name_from(table, s, 0, name)
}
