// Answers the questions of an open file by a table. No contract can say what is read or printed; that the answers to one piece
// after another are those to all of the input is what respond, finish and cut promise (prog_replies/specs/Pieces.antt).
#![tactic(auto)]

ghost use Rattle.std.specs.Prelude.{◌≡◌, true};
ghost use Rattle.spec_table.specs.Check.{is_table};

use prog_text::Writer;
use std::io::{Eprint, Print, Read};

// More rounds than any input has bytes.
const MOST: u64 = 4611686018427387904;

// Answers the questions of an open file piece by piece: a piece is as much as is read at once, size bytes, at most 4,096.
// The caller has loaded the table.
pub fn serve(rt: &(impl Print + Eprint), table: &[u8], from: &mut impl Read, size: usize)
    requires { is_table table.now ≡ true }
{
    let mut piece = [0u8; 4096];
    let mut buffer = [0u8; 256];
    let mut held = Writer::new(&mut buffer);
    let mut out = [0u8; 81920];
    let most = prog_input::at_most(size);
    for round in 0..MOST {
        prove!(round < 1 << 62);
        match prog_input::read_piece(from, &mut piece[..most]) {
            Ok(0) => {
                let Writer {
                    out: line,
                    at: count,
                    ..
                } = held;
                let n = prog_end::finish(table, line, count, &mut out);
                prog_output::put(rt, &out[..n]);
                return;
            }
            Ok(n) => {
                let printed = prog_replies::respond(table, &piece[..n], &mut held, &mut out);
                // Behind an answer that could not be printed none may stand in its place.
                if !prog_output::put(rt, &out[..printed]) {
                    return;
                }
            }
            Err(_) => break,
        }
    }
    let n = prog_cut::cut(held.at, &mut out);
    prog_output::put(rt, &out[..n]);
}
