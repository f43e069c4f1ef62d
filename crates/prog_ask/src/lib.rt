// The asker: answers the questions of an open file by the rules of a text.
#![tactic(auto)]

ghost use Rattle.std.specs.Prelude.{◌≡◌, ◌≤◌, length};
ghost use Rattle.spec_load.specs.Load.{load};
ghost use Rattle.prog_ask.specs.Asked.{Begun};

use spec_load::Loaded;
use std::io::{Eprint, Print, Read};

// Loads the rules; or writes the line for their refusal, and says how many bytes it has. The caller lends room for a line.
fn begin(rules: &[u8], table: &mut [u8], out: &mut [u8]) -> Result<(), usize>
    requires { 64 ≤ length out.old }
    ensures { Begun rules.now table.old table.new out.old out.new result }
{
    match load::load(rules, table) {
        Loaded::Accepted { length, warnings } => Ok(()),
        Loaded::Refused { refusal, place } => {
            let n = prog_report::refusal_line(refusal, place, out);
            Err(n)
        }
    }
}

// Answers the questions, or prints why the rules are refused. The program lends the table; size bytes of the file are read at once, at most 4,096.
// No contract can say what is read and printed; the table is that of the load.
pub fn answer(
    rt: &(impl Print + Eprint),
    rules: &[u8],
    table: &mut [u8],
    from: &mut impl Read,
    size: usize,
)
    ensures { table.new ≡ (load table.old rules.now).bytes }
{
    let mut out = [0u8; 64];
    match begin(rules, table, &mut out) {
        Ok(()) => prog_serve::serve(rt, table, from, size),
        Err(end) => {
            prog_output::put(rt, &out[..end]);
        }
    }
}
