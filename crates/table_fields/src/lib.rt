// The words of a table's header and records, and the sections.
#![tactic(auto)]

ghost use Rattle.std.specs.Prelude.{◌≡◌, ◌+◌, ◌*◌, ◌<◌, ◌≤◌, length};
ghost use Rattle.spec_file.specs.Limit.{order};
ghost use Rattle.spec_table.specs.Layout.{header_bytes, width};
ghost use Rattle.spec_table.specs.View.{header_word, count_of, offset_of, strings_order};
ghost use Rattle.spec_table.specs.Fields.{word_at};
ghost use Rattle.table_fields.specs.Field.{section, Word, word_of, HasField};

// The sections that hold records. The strings stand behind them.
#[derive(Clone, Copy)]
pub enum Section {
    UserGroups,
    HostGroups,
    Members,
    AccessGroups,
    Inputs,
    Rules,
    References,
}

// All of them, in a table's order.
pub const SECTIONS: [Section; 7] = [
    Section::UserGroups,
    Section::HostGroups,
    Section::Members,
    Section::AccessGroups,
    Section::Inputs,
    Section::Rules,
    Section::References,
];

// The bytes of a header.
pub const HEADER_BYTES: usize = 36;

// The strings are the section behind those.
const STRINGS: usize = 7;

// The little-endian word at a byte.
fn word(b: &[u8], at: usize) -> usize
    requires { at + 1 < length b.now }
    ensures { Word (word_at b.now at) result }
{
    usize::from(b[at]) + usize::from(b[at + 1]) * 256
}

// A word of the header. Callers have looked at the length.
pub fn header_word(b: &[u8], i: usize) -> usize
    requires { (header_bytes ≤ length b.now) × (i < 18) }
    ensures { Word (header_word b.now i) result }
{
    word(b, i * 2)
}

// Which section it is.
fn order(s: Section) -> usize
    ensures { result ≡ order (section s) }
{
    s as usize
}

// The words in a record of a section.
pub fn width(s: Section) -> usize
    ensures { result ≡ width (section s) }
{
    match s {
        Section::UserGroups | Section::HostGroups => 4,
        Section::Members => 2,
        Section::AccessGroups => 6,
        Section::Inputs | Section::References => 3,
        Section::Rules => 7,
    }
}

// The records of the n-th section; of the strings, which are the last, their bytes. Callers have looked at the length, and count from 0 to 7.
pub fn count(b: &[u8], n: usize) -> usize
    requires { (header_bytes ≤ length b.now) × (n < 8) }
    ensures { Word (count_of b.now n) result }
{
    header_word(b, 2 + n * 2)
}

// Where the n-th section starts. Callers have looked at the length, and count from 0 to 7.
pub fn offset(b: &[u8], n: usize) -> usize
    requires { (header_bytes ≤ length b.now) × (n < 8) }
    ensures { Word (offset_of b.now n) result }
{
    header_word(b, 3 + n * 2)
}

// The records of a section. Callers have looked at the length.
pub fn section_count(b: &[u8], s: Section) -> usize
    requires { header_bytes ≤ length b.now }
    ensures { Word (count_of b.now (order (section s))) result }
{
    count(b, order(s))
}

// Where a section starts. Callers have looked at the length.
pub fn section_offset(b: &[u8], s: Section) -> usize
    requires { header_bytes ≤ length b.now }
    ensures { Word (offset_of b.now (order (section s))) result }
{
    offset(b, order(s))
}

// The bytes of the strings. Callers have looked at the length.
pub fn strings_count(b: &[u8]) -> usize
    requires { header_bytes ≤ length b.now }
    ensures { Word (count_of b.now strings_order) result }
{
    count(b, STRINGS)
}

// Where the strings start. Callers have looked at the length.
pub fn strings_offset(b: &[u8]) -> usize
    requires { header_bytes ≤ length b.now }
    ensures { Word (offset_of b.now strings_order) result }
{
    offset(b, STRINGS)
}

// The j-th word of the i-th record of a section that starts there and whose records have so many words.
fn record_word(b: &[u8], offset: usize, width: usize, i: usize, j: usize) -> usize
    requires { offset + (i * width + j) * 2 + 1 < length b.now }
    ensures { Word (word_at b.now (offset + (i * width + j) * 2)) result }
{
    word(b, offset + (i * width + j) * 2)
}

// The j-th word of the i-th record of a section. Callers have found that the sections stand.
pub fn field(b: &[u8], s: Section, i: usize, j: usize) -> usize
    requires { HasField b.now (section s) i j }
    ensures { Word (word_of b.now (section s) i j) result }
{
    record_word(b, section_offset(b, s), width(s), i, j)
}
