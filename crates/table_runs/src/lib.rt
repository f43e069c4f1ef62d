// Whether sections and counts are those of a table.
#![tactic(auto)]

ghost use Rattle.std.specs.Prelude.{◌≡◌, true, map, ◌≤◌, length};
ghost use Rattle.spec_file.specs.Limit.{most};
ghost use Rattle.spec_table.specs.Layout.{sections, header_bytes};
ghost use Rattle.spec_table.specs.View.{extent, view};
ghost use Rattle.spec_table.specs.Check.{sections_stand, counts_fit};
ghost use Rattle.table_fields.specs.Field.{section};
ghost use Rattle.table_runs.specs.Follow.{Follow, sum_limit, ends_stand};

use table_fields::{HEADER_BYTES, SECTIONS, Section};

// The form of a table.
const FORM: usize = 1;

// The most bytes of all strings.
const MOST_BYTES: usize = 16384;

// The most records of a section.
fn most(s: Section) -> usize
    ensures { result ≡ most (section s) }
{
    match s {
        Section::UserGroups | Section::HostGroups | Section::AccessGroups => 64,
        Section::Members | Section::References => 1024,
        Section::Inputs => 512,
        Section::Rules => 256,
    }
}

// Where the sections of records end, if they follow each other behind the header.
fn sections_end(b: &[u8]) -> Option<usize>
    requires { header_bytes ≤ length b.now }
    ensures { Follow (map (extent b.now) sections) header_bytes sum_limit result }
{
    let mut at = HEADER_BYTES;
    for s in SECTIONS {
        if table_fields::section_offset(b, s) != at {
            return None;
        }
        at += table_fields::section_count(b, s) * (table_fields::width(s) * 2);
    }
    Some(at)
}

// Whether the strings start there, end with the table and lie within the bytes.
fn strings_end(b: &[u8], at: usize) -> bool
    requires { (header_bytes ≤ length b.now) × (at ≤ sum_limit) }
    ensures { result ≡ ends_stand b.now at }
{
    let total = table_fields::header_word(b, 1);
    table_fields::strings_offset(b) == at
        && at + table_fields::strings_count(b) == total
        && total <= b.len()
}

// Whether form, sections and length are a table's.
pub fn sections_stand(b: &[u8]) -> bool
    ensures { result ≡ sections_stand b.now }
{
    if b.len() < HEADER_BYTES || table_fields::header_word(b, 0) != FORM {
        return false;
    }
    let Some(at) = sections_end(b) else {
        return false;
    };
    strings_end(b, at)
}

// ---- of bytes whose sections stand

// Whether no section has more records than a table may have. Inner: is_table has asked sections_stand before.
pub fn counts_fit(b: &[u8]) -> bool
    requires { sections_stand b.now ≡ true }
    ensures { result ≡ counts_fit (view b.now) }
{
    SECTIONS
        .iter()
        .all(|&s| table_fields::section_count(b, s) <= most(s))
        && table_fields::strings_count(b) <= MOST_BYTES
}
