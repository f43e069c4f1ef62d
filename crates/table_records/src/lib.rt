// What is asked of the words of a record: strings, flags and numbers of groups. Inner: table calls it, where the sections stand.
#![tactic(auto)]

ghost use Rattle.std.specs.Prelude.{◌≡◌, true, ◌+◌, ◌<◌};
ghost use Rattle.spec_table.specs.View.{view};
ghost use Rattle.spec_table.specs.Check.{run_at, sections_stand, string_fits, flags_stand, no_calculation, numbers_fit};
ghost use Rattle.spec_file.specs.Limit.{references};
ghost use Rattle.spec_table.specs.Policy.{row};
ghost use Rattle.table_fields.specs.Field.{section, HasField};
ghost use Rattle.table_records.specs.Records.{number_stands};

use table_fields::Section;

// The number of an undefined group.
const UNDEFINED: usize = 65535;

// Whether the string that stands at the j-th word of a record lies among the strings and is not too long.
pub fn string_fits(b: &[u8], s: Section, i: usize, j: usize, longest: usize) -> bool
    requires { HasField b.now (section s) i (j + 1) }
    ensures { result ≡ string_fits (view b.now) longest (run_at j (row (view b.now) (section s) i)) }
{
    let length = table_fields::field(b, s, i, j + 1);
    table_fields::field(b, s, i, j) + length <= table_fields::strings_count(b) && length <= longest
}

pub fn flags_stand(flags: usize) -> bool
    ensures { result ≡ flags_stand flags }
{
    flags / 2 % 4 < 3 && flags / 16 < 2
}

pub fn no_calculation(first: usize, length: usize) -> bool
    ensures { result ≡ no_calculation (record { first = first; count = length }) }
{
    first == 0 && length == 0
}

// Whether a reference's group is undefined or one of so many.
fn number_stands(b: &[u8], i: usize, groups: usize) -> bool
    requires { HasField b.now references i 0 }
    ensures { result ≡ number_stands groups (row (view b.now) references i) }
{
    let number = table_fields::field(b, Section::References, i, 0);
    number == UNDEFINED || number < groups
}

// Whether the groups of a run of references are undefined or in a section.
pub fn numbers_fit(b: &[u8], first: usize, length: usize, of: Section) -> bool
    requires { (sections_stand b.now ≡ true) × (first < 65536) × (length < 65536) }
    ensures { result ≡ numbers_fit (view b.now) (section of) (record { first = first; count = length }) }
{
    let groups = table_fields::section_count(b, of);
    let end = table_fields::section_count(b, Section::References).min(first + length);
    (first..end).all(|i| number_stands(b, i, groups))
}
