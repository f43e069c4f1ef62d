// Whether bytes are a table.
#![tactic(auto)]

ghost use Rattle.std.specs.Prelude.{◌≡◌, true};
ghost use Rattle.spec_lists.specs.Select.{all};
ghost use Rattle.spec_table.specs.Layout.{sections};
ghost use Rattle.spec_table.specs.View.{view};
ghost use Rattle.spec_table.specs.Check.{sections_stand, calculation_stands, calculation_run};
ghost use Rattle.spec_table.specs.Check.{rule_stands, is_table};
ghost use Rattle.spec_table.specs.Policy.{row};
ghost use Rattle.spec_file.specs.Limit.{rules};
ghost use Rattle.table_fields.specs.Field.{section, HasField};
ghost use Rattle.table_records.specs.Records.{HasRule, record_stands, section_stands};

use table_fields::{SECTIONS, Section, field};
use table_records::{flags_stand, no_calculation, numbers_fit, string_fits};

const LONGEST_NAME: usize = 60;

const LONGEST_CALCULATION: usize = 79;

const GREATEST_LETTER: usize = 20;

fn calculation_stands(b: &[u8], i: usize) -> bool
    requires { HasRule b.now i }
    ensures { result ≡ calculation_stands (view b.now) (calculation_run (row (view b.now) rules i)) }
{
    let first = field(b, Section::Rules, i, 5);
    let length = field(b, Section::Rules, i, 6);
    if no_calculation(first, length) {
        return true;
    }
    if !string_fits(b, Section::Rules, i, 5, LONGEST_CALCULATION) {
        return false;
    }
    let from = table_fields::strings_offset(b) + first;
    calc::allowed(&b[from..from + length])
}

fn rule_stands(b: &[u8], i: usize) -> bool
    requires { HasRule b.now i }
    ensures { result ≡ rule_stands (view b.now) (row (view b.now) rules i) }
{
    let users = field(b, Section::Rules, i, 1);
    let users_count = field(b, Section::Rules, i, 2);
    let hosts = field(b, Section::Rules, i, 3);
    let hosts_count = field(b, Section::Rules, i, 4);
    flags_stand(field(b, Section::Rules, i, 0))
        && calculation_stands(b, i)
        && numbers_fit(b, users, users_count, Section::UserGroups)
        && numbers_fit(b, hosts, hosts_count, Section::HostGroups)
}

fn record_stands(b: &[u8], s: Section, i: usize) -> bool
    requires { HasField b.now (section s) i 0 }
    ensures { result ≡ record_stands (view b.now) (section s) (row (view b.now) (section s) i) }
{
    match s {
        Section::Inputs => string_fits(b, s, i, 1, LONGEST_NAME)
            && field(b, s, i, 0) <= GREATEST_LETTER,
        Section::Rules => rule_stands(b, i),
        Section::References => string_fits(b, s, i, 1, LONGEST_NAME),
        _ => string_fits(b, s, i, 0, LONGEST_NAME),
    }
}

fn section_stands(b: &[u8], s: Section) -> bool
    requires { sections_stand b.now ≡ true }
    ensures { result ≡ section_stands (view b.now) (section s) }
{
    (0..table_fields::section_count(b, s)).all(|i| record_stands(b, s, i))
}

// Each turn looks at one section, so all of them at each record once. The runs of references follow each other, so the
// rules together look at each reference once.
fn records_stand(b: &[u8]) -> bool
    requires { sections_stand b.now ≡ true }
    ensures { result ≡ all (section_stands (view b.now)) sections }
{
    SECTIONS.iter().all(|&s| section_stands(b, s))
}

// ---- the table

// Whether bytes are a table.
#[tactic(auto, using(crate::specs::laws::Whole::table_is))]
pub fn is_table(b: &[u8]) -> bool
    ensures { result ≡ is_table b.now }
{
    table_runs::sections_stand(b)
        && table_runs::counts_fit(b)
        && table_follow::runs_stand(b)
        && records_stand(b)
}
