// What the asker prints for its input, which comes in pieces: for the lines that end in a piece.
#![tactic(auto)]

ghost use Rattle.std.specs.Prelude.{◌≡◌, true, ◌+◌, ◌*◌, ◌≤◌, length, take};
ghost use Rattle.spec_table.specs.Check.{is_table};
ghost use Rattle.prog_replies.specs.Pieces.{room, longest_reply, LineSpan, Extends, State, Responds};

use prog_text::Writer;

// Behind the line that has begun stands what a piece has from an offset up to another: if a newline ends it there, it is answered.
fn take_line(
    table: &[u8],
    piece: &[u8],
    at: usize,
    end: usize,
    held: &mut Writer<'_>,
    w: &mut Writer<'_>,
)
    requires { (is_table table.now ≡ true) × LineSpan piece.now at end × (length held.old.out.now ≡ room) }
    ensures held_lent { held.new.out.ghost_name ≡ held.old.out.ghost_name }
    ensures lent { w.new.out.ghost_name ≡ w.old.out.ghost_name }
    ensures held_room { length held.new.out.now ≡ room }
    ensures answered { Extends table.now (take at piece.now) (take (end + 1) piece.now)
        w.old.out.now w.old.at held.old.out.now held.old.at w.new.out.now w.new.at held.new.out.now held.new.at }
{
    held.put(&piece[at..end]);
    if end == piece.len() {
        return;
    }
    prog_reply::reply(w, table, &held.out[..held.at]);
    held.at = 0;
}

// Answers the lines that end in a piece. Of the line behind them as much is held as shows whether it is too long.
// The caller has loaded the table, holds the line from the piece before, and lends room for the answers.
pub fn respond(table: &[u8], piece: &[u8], held: &mut Writer<'_>, out: &mut [u8]) -> usize
    requires { (is_table table.now ≡ true) × State held.old.out.now held.old.at × (longest_reply * length piece.now ≤ length out.old) }
    ensures held_lent { held.new.out.ghost_name ≡ held.old.out.ghost_name }
    ensures answered { Responds table.now piece.now out.old held.old.out.now held.old.at
        out.new result held.new.out.now held.new.at }
{
    let mut w = Writer::new(out);
    let mut at = 0;
    // Stays: a step goes behind a newline, so that no `for` counts it.
    while at < piece.len() {
        let end = byte_find::find(piece, at, piece.len(), b'\n');
        take_line(table, piece, at, end, held, &mut w);
        at = end + 1;
    }
    w.at
}
