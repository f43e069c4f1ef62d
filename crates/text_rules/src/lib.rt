// The rules of an access group.
#![tactic(auto)]

ghost use Rattle.spec_file.specs.Limit.{rules};
ghost use Rattle.spec_table.specs.View.{view};
ghost use Rattle.spec_table.specs.Policy.{row};
ghost use Rattle.table_read.specs.Stored.{Stored};
ghost use Rattle.text_marks.specs.Room.{Room};
ghost use Rattle.text_marks.specs.Writes.{Writes};
ghost use Rattle.text_marks.specs.Names.{run, RunStored};
ghost use Rattle.text_rules.specs.Rules.{rule_text, rules_text};

use std::ops::Range;
use table_read::Section;
use text_marks::Writer;

// A rule: its head, and its body if that has lines.
fn put_rule(out: &mut Writer<'_>, table: &[u8], rule: usize)
    requires { Stored table.now rules rule × Room out.old.at (rule_text (view table.now) (row (view table.now) rules rule)) }
    ensures { Writes out.old out.new (rule_text (view table.now) (row (view table.now) rules rule)) }
{
    text_head::put_head(out, table_read::field(table, Section::Rules, rule, 0));
    if text_body::has_body(table, rule) {
        out.put(b"{\n");
        text_body::put_body(out, table, rule);
        out.put(b"}\n");
    } else {
        out.put(b"\n");
    }
}

// The rules of a run. Inner: text_write calls it, with the run of an access group and room for its text.
pub fn put_rules(out: &mut Writer<'_>, table: &[u8], records: Range<usize>)
    requires { RunStored table.now rules records × Room out.old.at (rules_text (view table.now) (run records)) }
    ensures { Writes out.old out.new (rules_text (view table.now) (run records)) }
{
    for i in records {
        put_rule(out, table, i);
    }
}
