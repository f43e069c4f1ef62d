// What the checker prints for a file, written into lent bytes. 01, "Two programs".
#![tactic(auto)]

ghost use Rattle.prog_check.specs.Lines.{Prints};

use spec_load::Listed;

// No file has more tokens than bytes, and so no more warnings.
const MOST: usize = 16384;

// So many bytes have room for the lines of any file: specs/Lines.antt, most_printed.
pub const MOST_PRINTED: usize = 344064;

// Writes what the checker prints for a file, as far as there is room, and answers how many bytes.
pub fn check(text: &[u8], out: &mut [u8]) -> usize
    ensures { Prints text.now out.old out.new result }
{
    let mut numbers = [0u8; MOST];
    let mut places = [0u16; MOST];
    match warnings::list_warnings(text, 0, &mut numbers, &mut places) {
        Listed::Refused { refusal, place } => prog_report::refusal_line(refusal, place, out),
        Listed::Warnings(count) => {
            prog_warnings::put_warnings(&numbers[..count], &places[..count], out)
        },
    }
}
