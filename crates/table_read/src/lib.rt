// The records of a checked table: counts, fields, names.
#![tactic(auto)]

ghost use Rattle.std.specs.Prelude.{◌≡◌, true, ◌+◌, ◌<◌, length};
ghost use Rattle.spec_table.specs.Layout.{width};
ghost use Rattle.spec_table.specs.View.{view};
ghost use Rattle.spec_table.specs.Check.{is_table};
ghost use Rattle.spec_table.specs.Policy.{name, row};
ghost use Rattle.spec_decision.specs.LookUp.{name_part};
ghost use Rattle.table_fields.specs.Field.{section, Word, word_of};
ghost use Rattle.table_read.specs.Stored.{name_word, Stored};

use spec_decision::Found;
use std::ops::Range;
pub use table_fields::Section;

// The records of a table that was checked: every function asks for that, or for a record of such a table (Stored). Callers have asked
// is_table, or have the bytes of an accepted load; they know a record's number from a count, a run or a search.

// The word of a record at which its name begins; a rule's is its calculation.
fn name_word(s: Section) -> usize
    ensures { result ≡ name_word s }
{
    match s {
        Section::Inputs | Section::References => 1,
        Section::Rules => 5,
        _ => 0,
    }
}

// How many records a section has. Inner: ask_input goes through the groups by it.
pub fn count(table: &[u8], s: Section) -> usize
    requires { is_table table.now ≡ true }
    ensures { result ≡ length ((view table.now).records (section s)) }
{
    table_fields::section_count(table, s)
}

// The j-th word of the i-th record of a section. Inner: its callers have the record from a search or a run.
pub fn field(table: &[u8], s: Section, i: usize, j: usize) -> usize
    requires { Stored table.now (section s) i × (j < width (section s)) }
    ensures { Word (word_of table.now (section s) i j) result }
{
    table_fields::field(table, s, i, j)
}

// The part of a table that a record's name is. Inner: its callers have the record from a search or a run.
pub fn name_of(table: &[u8], s: Section, i: usize) -> &[u8]
    requires { Stored table.now (section s) i }
    ensures { result.now ≡ name (view table.now) (section s) (row (view table.now) (section s) i) }
{
    let j = name_word(s);
    let strings = table_fields::strings_offset(table);
    let a = strings + field(table, s, i, j);
    let e = a + field(table, s, i, j + 1);
    &table[a..e]
}

// Where a record's name stands in the table. Inner: its callers have the record from a search or a count.
pub fn name_part(table: &[u8], s: Section, i: usize) -> Found
    requires { Stored table.now (section s) i }
    ensures { result ≡ name_part (section s) table.now (row (view table.now) (section s) i) }
{
    let j = name_word(s);
    let strings = table_fields::strings_offset(table);
    let at = strings + field(table, s, i, j);
    let length = field(table, s, i, j + 1);
    Found::Part { at, length }
}

// The run that two words of a record give: the number of its first, and how many they are. Inner: callers as of field.
pub fn run(table: &[u8], s: Section, i: usize, j: usize) -> Range<usize>
    requires { Stored table.now (section s) i × (j + 1 < width (section s)) }
    ensures start { result.start ≡ word_of table.now (section s) i j }
    ensures end { result.end ≡ word_of table.now (section s) i j + word_of table.now (section s) i (j + 1) }
    ensures small { result.end < 131072 }
{
    let start = field(table, s, i, j);
    start..start + field(table, s, i, j + 1)
}
