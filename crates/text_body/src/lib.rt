// The body of a rule: the groups that it names, its calculation, and that it is switched off.
#![tactic(auto)]

ghost use Rattle.std.specs.Prelude.{◌≡◌};
ghost use Rattle.spec_lists.specs.Select.{nonempty};
ghost use Rattle.spec_file.specs.Limit.{rules, references};
ghost use Rattle.spec_table.specs.View.{view};
ghost use Rattle.spec_table.specs.Policy.{row};
ghost use Rattle.spec_text.specs.Lines.{ended};
ghost use Rattle.table_read.specs.Stored.{Stored};
ghost use Rattle.text_marks.specs.Room.{Room};
ghost use Rattle.text_marks.specs.Writes.{Writes};
ghost use Rattle.text_marks.specs.Names.{run, RunStored, names};
ghost use Rattle.text_body.specs.Body.{references_text, calculation_text, body_lines};

use std::ops::Range;
use table_read::Section;
use text_marks::Writer;

// The line of the user groups, or of the host groups, that a rule names.
fn put_references(out: &mut Writer<'_>, table: &[u8], word: &[u8], records: Range<usize>)
    requires { RunStored table.now references records × Room out.old.at (references_text word.now (names (view table.now) references (run records))) }
    ensures { Writes out.old out.new (references_text word.now (names (view table.now) references (run records))) }
{
    if !records.is_empty() {
        out.put(word);
        out.put(b"(");
        out.put_names(table, Section::References, records);
        out.put(b")\n");
    }
}

// The line of a rule's calculation, if it has one.
fn put_calculation(out: &mut Writer<'_>, table: &[u8], rule: usize)
    requires { Stored table.now rules rule × Room out.old.at (calculation_text (view table.now) (row (view table.now) rules rule)) }
    ensures { Writes out.old out.new (calculation_text (view table.now) (row (view table.now) rules rule)) }
{
    // Stays: two words and no range, as a table says by 0, 0, and not by an empty run, that there is none.
    let first = table_read::field(table, Section::Rules, rule, 5);
    let n = table_read::field(table, Section::Rules, rule, 6);
    if first + n != 0 {
        out.put_called(b"CALC", table_read::name_of(table, Section::Rules, rule));
        out.put(b"\n");
    }
}

// The lines of a rule's body. Inner: text_rules calls it, with a rule of a checked table and room for its text.
pub fn put_body(out: &mut Writer<'_>, table: &[u8], rule: usize)
    requires { Stored table.now rules rule × Room out.old.at (ended (body_lines (view table.now) (row (view table.now) rules rule))) }
    ensures { Writes out.old out.new (ended (body_lines (view table.now) (row (view table.now) rules rule))) }
{
    let users = table_read::run(table, Section::Rules, rule, 1);
    let hosts = table_read::run(table, Section::Rules, rule, 3);
    put_references(out, table, b"UAG", users);
    put_references(out, table, b"HAG", hosts);
    put_calculation(out, table, rule);
    text_head::put_unknown(out, table_read::field(table, Section::Rules, rule, 0));
}

// Whether a rule's body has lines. Inner: as put_body.
pub fn has_body(table: &[u8], rule: usize) -> bool
    requires { Stored table.now rules rule }
    ensures { result ≡ nonempty (body_lines (view table.now) (row (view table.now) rules rule)) }
{
    let off = table_read::field(table, Section::Rules, rule, 0) / 16;
    let users = table_read::field(table, Section::Rules, rule, 2);
    let hosts = table_read::field(table, Section::Rules, rule, 4);
    let first = table_read::field(table, Section::Rules, rule, 5);
    let n = table_read::field(table, Section::Rules, rule, 6);
    off + users + hosts + first + n != 0
}
