// What the asker prints for the line that has begun where the reading of its input fails.
#![tactic(auto)]

ghost use Rattle.std.specs.Prelude.{◌≤◌, length};
ghost use Rattle.prog_replies.specs.Pieces.{longest_reply, Cuts};

use prog_text::Writer;

// Refuses the line that has begun where the reading of the input fails, if so many bytes of it came.
// The caller holds them from the last piece (prog_replies::respond).
pub fn cut(count: usize, out: &mut [u8]) -> usize
    requires { longest_reply ≤ length out.old }
    ensures { Cuts count out.old out.new result }
{
    if count == 0 {
        return 0;
    }
    let mut w = Writer::new(out);
    prog_answer::refused_text(&mut w);
    w.put(b"\n");
    w.at
}
