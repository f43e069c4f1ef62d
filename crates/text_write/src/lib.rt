// The whole text of a checked table.
#![tactic(auto)]

ghost use Rattle.std.specs.Prelude.{◌≡◌, true, ◌<◌, length};
ghost use Rattle.spec_file.specs.Limit.{access_groups};
ghost use Rattle.spec_table.specs.View.{view};
ghost use Rattle.spec_table.specs.Check.{is_table};
ghost use Rattle.spec_table.specs.Policy.{row};
ghost use Rattle.spec_export.specs.Unwritable.{text_in};
ghost use Rattle.byte_write.specs.Put.{Put, usize_limit};
ghost use Rattle.table_read.specs.Stored.{Stored};
ghost use Rattle.text_marks.specs.Room.{Room};
ghost use Rattle.text_marks.specs.Writes.{Writes};
ghost use Rattle.text_write.specs.Access.{access_text, accesses_text};

use table_read::Section;
use text_marks::Writer;

// An access group: its head, and a body if it has inputs or rules.
fn put_access_group(out: &mut Writer<'_>, table: &[u8], i: usize)
    requires { Stored table.now access_groups i × Room out.old.at (access_text (view table.now) (row (view table.now) access_groups i)) }
    ensures { Writes out.old out.new (access_text (view table.now) (row (view table.now) access_groups i)) }
{
    let inputs = table_read::run(table, Section::AccessGroups, i, 2);
    let rules = table_read::run(table, Section::AccessGroups, i, 4);
    out.put_called(b"ASG", table_read::name_of(table, Section::AccessGroups, i));
    if inputs.is_empty() && rules.is_empty() {
        out.put(b"\n");
    } else {
        out.put(b"{\n");
        text_inputs::put_inputs(out, table, inputs);
        text_rules::put_rules(out, table, rules);
        out.put(b"}\n");
    }
}

// All access groups.
fn put_access_groups(out: &mut Writer<'_>, table: &[u8])
    requires { (is_table table.now ≡ true) × Room out.old.at (accesses_text (view table.now)) }
    ensures { Writes out.old out.new (accesses_text (view table.now)) }
{
    for i in 0..table_read::count(table, Section::AccessGroups) {
        put_access_group(out, table, i);
    }
}

// Writes the text at the start of the lent bytes, as far as there is room, and returns its length.
// Inner: a caller has asked is_table, and knows that no table's text is near the greatest usize.
pub fn write(table: &[u8], lent: &mut [u8]) -> usize
    requires { (is_table table.now ≡ true) × (length (text_in (view table.now)) < usize_limit) }
    ensures { Put lent.old lent.new 0 (text_in (view table.now)) result }
{
    let mut out = Writer { lent, at: 0 };
    text_groups::put_groups(&mut out, table, Section::UserGroups, b"UAG");
    text_groups::put_groups(&mut out, table, Section::HostGroups, b"HAG");
    put_access_groups(&mut out, table);
    out.at
}
