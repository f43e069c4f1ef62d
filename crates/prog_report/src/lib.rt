// What is printed for a file: its refusal, or a warning, with its place. 01, "Two programs".
#![tactic(auto)]

ghost use Rattle.std.specs.Prelude.{◌≡◌};
ghost use Rattle.prog_text.specs.Put.{Stands};
ghost use Rattle.prog_text.specs.Writes.{Writes};
ghost use Rattle.prog_text.specs.Text.{line};
ghost use Rattle.prog_report.specs.Report.{placed, refusal_line, warning_line};

use load_number::refusal_number;
use prog_text::Writer;
use spec_file::Refusal;

// A number and a place behind a word, on a line of its own.
fn put_line(w: &mut Writer<'_>, word: &[u8], n: usize, p: usize)
    ensures lent { w.new.out.ghost_name ≡ w.old.out.ghost_name }
    ensures written { Writes (line (placed word.now n p)) w.old w.new }
{
    w.put(word);
    w.put_number(n);
    w.put(b" at ");
    w.put_number(p);
    w.put(b"\n");
}

// Into lent bytes, from their start on; how many bytes were written.
pub fn refusal_line(k: Refusal, p: usize, out: &mut [u8]) -> usize
    ensures { Stands (refusal_line k p) out.old out.new result 64 }
{
    let mut w = Writer::new(out);
    put_line(&mut w, b"refusal ", usize::from(refusal_number(k)), p);
    w.at
}

// For a warning.
pub fn warning_line(w: &mut Writer<'_>, n: usize, p: usize)
    ensures lent { w.new.out.ghost_name ≡ w.old.out.ghost_name }
    ensures written { Writes (warning_line n p) w.old w.new }
{
    put_line(w, b"warning ", n, p);
}
