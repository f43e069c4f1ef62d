// What the program export prints for a file: its rules written back as text, or why not. Written into lent bytes. 02, ticket 6.
#![tactic(auto)]

ghost use Rattle.prog_text.specs.Put.{Put};
ghost use Rattle.prog_export.specs.Printed.{Prints};

use prog_text::Writer;
use spec_export::Exported;
use spec_load::Loaded;

// So many bytes have room for every text: spec_text/specs/Lines.antt, greatest_text.
pub const MOST_PRINTED: usize = 213056;

fn put_line(line: &[u8], out: &mut [u8]) -> usize
    ensures { Put line.now out.old 0 out.new result }
{
    let mut w = Writer::new(out);
    w.put(line);
    w.at
}

// Loads the rules into the lent table, and writes the table's text, or the line that says why there is none, as far as there is room; answers how
// many bytes. Of a table that a load wrote, an export is never refused with 20, and never with 28 where there is room for every text.
pub fn write_back(rules: &[u8], table: &mut [u8], out: &mut [u8]) -> usize
    ensures { Prints rules.now table.old table.new out.old out.new result }
{
    match load::load(rules, table) {
        Loaded::Refused { refusal, place } => prog_report::refusal_line(refusal, place, out),
        Loaded::Accepted { length, warnings } => match text::export(table, out) {
            Exported::Written(n) => n,
            Exported::NotTable => put_line(b"refused 20\n", out),
            Exported::Unwritable => put_line(b"refused 27\n", out),
            Exported::NoRoom(_) => put_line(b"refused 28\n", out),
        },
    }
}
