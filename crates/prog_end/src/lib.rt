// What the asker prints for the line that has begun where its input ends.
#![tactic(auto)]

ghost use Rattle.std.specs.Prelude.{◌≡◌, true, ◌≤◌, length};
ghost use Rattle.spec_table.specs.Check.{is_table};
ghost use Rattle.prog_replies.specs.Pieces.{longest_reply, State, Finishes};

use prog_text::Writer;

// Answers the line that has begun at the end of the input: the last may lack its newline.
// The caller has loaded the table, and has count from the last piece (prog_replies::respond).
// Stays: bytes and a count, no Writer, as who lends bytes without one may call it too.
pub fn finish(table: &[u8], buffer: &[u8], count: usize, out: &mut [u8]) -> usize
    requires { (is_table table.now ≡ true) × State buffer.now count × (longest_reply ≤ length out.old) }
    ensures { Finishes table.now buffer.now count out.old out.new result }
{
    if count == 0 {
        return 0;
    }
    let mut w = Writer::new(out);
    prog_reply::reply(&mut w, table, &buffer[..count]);
    w.at
}
