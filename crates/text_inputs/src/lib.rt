// The inputs of an access group.
#![tactic(auto)]

ghost use Rattle.spec_file.specs.Limit.{inputs};
ghost use Rattle.spec_table.specs.View.{view};
ghost use Rattle.spec_table.specs.Policy.{row};
ghost use Rattle.table_read.specs.Stored.{Stored};
ghost use Rattle.text_marks.specs.Room.{Room};
ghost use Rattle.text_marks.specs.Writes.{Writes};
ghost use Rattle.text_marks.specs.Names.{run, RunStored};
ghost use Rattle.text_inputs.specs.Inputs.{input_text, inputs_text};

use std::ops::Range;
use table_read::Section;
use text_marks::Writer;

// The line of an input.
fn put_input(out: &mut Writer<'_>, table: &[u8], i: usize)
    requires { Stored table.now inputs i × Room out.old.at (input_text (view table.now) (row (view table.now) inputs i)) }
    ensures { Writes out.old out.new (input_text (view table.now) (row (view table.now) inputs i)) }
{
    let letter = table_read::field(table, Section::Inputs, i, 0);
    let word = [b'I', b'N', b'P', b'A' + letter as u8];
    out.put_called(&word, table_read::name_of(table, Section::Inputs, i));
    out.put(b"\n");
}

// The lines of a run of inputs. Inner: text_write calls it, with the run of an access group and room for its text.
pub fn put_inputs(out: &mut Writer<'_>, table: &[u8], records: Range<usize>)
    requires { RunStored table.now inputs records × Room out.old.at (inputs_text (view table.now) (run records)) }
    ensures { Writes out.old out.new (inputs_text (view table.now) (run records)) }
{
    for i in records {
        put_input(out, table, i);
    }
}
