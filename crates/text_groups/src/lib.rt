// User groups and host groups with their members.
#![tactic(auto)]

ghost use Rattle.std.specs.Prelude.{◌≡◌, true};
ghost use Rattle.spec_table.specs.View.{view};
ghost use Rattle.spec_table.specs.Check.{is_table};
ghost use Rattle.spec_table.specs.Policy.{row};
ghost use Rattle.table_read.specs.Stored.{section, Stored};
ghost use Rattle.text_marks.specs.Room.{Room};
ghost use Rattle.text_marks.specs.Writes.{Writes};
ghost use Rattle.text_groups.specs.Groups.{HasMembers, group_text, groups_text};

use table_read::Section;
use text_marks::Writer;

// A group: its head, and a body of one line if it has members.
fn put_group(out: &mut Writer<'_>, table: &[u8], s: Section, word: &[u8], i: usize)
    requires { Stored table.now (section s) i × HasMembers (section s)
        × Room out.old.at (group_text (view table.now) (section s) word.now (row (view table.now) (section s) i)) }
    ensures { Writes out.old out.new (group_text (view table.now) (section s) word.now (row (view table.now) (section s) i)) }
{
    let members = table_read::run(table, s, i, 2);
    out.put_called(word, table_read::name_of(table, s, i));
    if members.is_empty() {
        out.put(b"\n");
    } else {
        out.put(b"{\n");
        out.put_names(table, Section::Members, members);
        out.put(b"\n}\n");
    }
}

// All groups of a section. Inner: text_write calls it, of a checked table and with room for its text.
pub fn put_groups(out: &mut Writer<'_>, table: &[u8], s: Section, word: &[u8])
    requires { (is_table table.now ≡ true) × HasMembers (section s) × Room out.old.at (groups_text (view table.now) (section s) word.now) }
    ensures { Writes out.old out.new (groups_text (view table.now) (section s) word.now) }
{
    // Stays: put_groups, put_inputs, put_rules and put_access_groups are a `for` with one call each; one function over a closure would
    // be no shorter, and a closure that writes would need its own clauses at each of the four calls.
    for i in 0..table_read::count(table, s) {
        put_group(out, table, s, word, i);
    }
}
