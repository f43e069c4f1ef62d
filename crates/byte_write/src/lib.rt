// Writing bytes, words and texts into lent bytes. What stands past the end is skipped, so that one code measures and writes.
#![tactic(auto)]

ghost use Rattle.std.specs.Prelude.{◌≡◌, [], ◌∷◌, map, ◌+◌, ◌*◌, ◌<◌, length};
ghost use Rattle.spec_lists.specs.Words.{word_bytes, spelled_out};
ghost use Rattle.byte_write.specs.Put.{Put, cased, usize_limit};

// Each function writes at a place and returns the place behind what it wrote. A byte past the end is not written, so that the same
// code measures and writes. Callers keep their places far below the greatest usize.

#[tactic(auto, using(crate::specs::laws::Puts::put_one, crate::specs::laws::Puts::put_past))]
fn put_byte(lent: &mut [u8], at: usize, b: u8) -> usize
    requires { at + 1 < usize_limit }
    ensures { Put lent.old lent.new at (b ∷ []) result }
{
    if at < lent.len() {
        lent[at] = b;
    }
    at + 1
}

// The lowest 16 bits of v, low byte first.
fn put_word(lent: &mut [u8], at: usize, v: usize) -> usize
    requires { at + 2 < usize_limit }
    ensures { Put lent.old lent.new at (word_bytes v) result }
{
    let next = put_byte(lent, at, (v % 256) as u8);
    put_byte(lent, next, (v / 256 % 256) as u8)
}

// Words, one behind the other. Inner: load_write calls it with the words of a header, load_records with those of a record, both at a place in a
// table, far below the greatest usize.
pub fn put_words(lent: &mut [u8], at: usize, words: &[usize]) -> usize
    requires { at + 2 * length words.now < usize_limit }
    ensures { Put lent.old lent.new at (spelled_out words.now) result }
{
    let mut next = at;
    for word in words {
        next = put_word(lent, next, *word);
    }
    next
}

fn in_case(b: u8, low: bool) -> u8
    ensures { result ≡ cased low b }
{
    if low { byte_compare::lower(b) } else { b }
}

// Stays: put_words and put_text are loops of one shape, but one for both would take a closure for what each piece writes, and is no plainer.
// The bytes of a text, in lower case if asked. Inner: load_records calls it, with a text of the file at a place in a table.
pub fn put_text(lent: &mut [u8], at: usize, t: &[u8], low: bool) -> usize
    requires { at + length t.now < usize_limit }
    ensures { Put lent.old lent.new at (map (cased low) t.now) result }
{
    let mut next = at;
    for b in t {
        next = put_byte(lent, next, in_case(*b, low));
    }
    next
}
