// The lines of some warnings, written into lent bytes. 01, "Two programs".
#![tactic(auto)]

ghost use Rattle.std.specs.Prelude.{◌≡◌, ◌*◌, length};
ghost use Rattle.prog_text.specs.Put.{Stands};
ghost use Rattle.prog_warnings.specs.Lines.{lines_by, longest_line};

use prog_report::warning_line;
use prog_text::Writer;

// The lines of warnings by their numbers and places, from the start of the lent bytes on; how many bytes were written.
pub fn put_warnings(numbers: &[u8], places: &[u16], out: &mut [u8]) -> usize
    ensures { Stands (lines_by numbers.now places.now) out.old out.new result (longest_line * length numbers.now) }
{
    let mut w = Writer::new(out);
    for (number, place) in numbers.iter().zip(places) {
        warning_line(&mut w, usize::from(*number), usize::from(*place));
    }
    w.at
}
