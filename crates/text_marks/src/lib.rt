// Pieces of a text: words, quoted names, lists of names.
#![tactic(auto)]

ghost use Rattle.std.specs.Prelude.{◌<◌};
ghost use Rattle.spec_table.specs.View.{view};
ghost use Rattle.spec_text.specs.Lines.{quoted, called};
ghost use Rattle.table_read.specs.Stored.{section};
ghost use Rattle.text_marks.specs.Room.{Room};
ghost use Rattle.text_marks.specs.Writes.{Writes};
ghost use Rattle.text_marks.specs.Names.{run, RunStored, names, listed, others};

use std::ops::Range;
use table_read::Section;

// The bytes that a text is written into, and the place behind what is written. What stands past their end is skipped, and the place
// moves on all the same, so that one code measures and writes. Room says that the place behind a text is a usize.
#[derive(Drop)]
pub struct Writer<'a> {
    pub lent: &'a mut [u8],
    pub at: usize,
}

impl Writer<'_> {
    // The bytes of a word or of signs. Inner: the callers write parts of a table's text, and have room for all of it.
    pub fn put(&mut self, t: &[u8])
        requires { Room self.old.at t.now }
        ensures { Writes self.old self.new t.now }
    {
        self.at = byte_write::put_text(self.lent, self.at, t, false);
    }

    // A text between quotes.
    fn put_quoted(&mut self, t: &[u8])
        requires { Room self.old.at (quoted t.now) }
        ensures { Writes self.old self.new (quoted t.now) }
    {
        self.put(b"\"");
        self.put(t);
        self.put(b"\""); // the closing quote
    }

    // A word, and a name between its parentheses. Inner: as put.
    pub fn put_called(&mut self, word: &[u8], name: &[u8])
        requires { Room self.old.at (called word.now (quoted name.now)) }
        ensures { Writes self.old self.new (called word.now (quoted name.now)) }
    {
        self.put(word);
        self.put(b"(");
        self.put_quoted(name);
        self.put(b")");
    }

    // The names of a run of records, a comma before each.
    fn put_others(&mut self, table: &[u8], s: Section, records: Range<usize>)
        requires { RunStored table.now (section s) records × Room self.old.at (others (names (view table.now) (section s) (run records))) }
        ensures { Writes self.old self.new (others (names (view table.now) (section s) (run records))) }
    {
        for i in records {
            self.put(b",");
            self.put_quoted(table_read::name_of(table, s, i));
        }
    }

    // The names of a run of records, parted by commas. Inner: a caller has the run from a record of a checked table, has seen that it is not
    // empty, and has room as for put.
    pub fn put_names(&mut self, table: &[u8], s: Section, records: Range<usize>)
        requires { RunStored table.now (section s) records × (records.start < records.end)
            × Room self.old.at (listed (names (view table.now) (section s) (run records))) }
        ensures { Writes self.old self.new (listed (names (view table.now) (section s) (run records))) }
    {
        self.put_quoted(table_read::name_of(table, s, records.start));
        self.put_others(table, s, records.start + 1..records.end);
    }
}
