// The kinds of words.
#![tactic(auto)]

ghost use Rattle.std.specs.Prelude.{◌≡◌};
ghost use Rattle.spec_token.specs.Scanner.{inp, word_kind};
ghost use Rattle.load_kind.specs.Keyword.{keyword};

use load_word::{is_float, is_int};
use spec_token::Kind;

// INP and a letter from A to U.
fn is_input(w: &[u8]) -> bool
    ensures { result ≡ inp w.now }
{
    w.len() == 4 && w.starts_with(b"INP") && matches!(w[3], b'A'..=b'U')
}

// The kind of a word that is a keyword as it stands.
fn keyword(w: &[u8]) -> Option<Kind>
    ensures { result ≡ keyword w.now }
{
    if w == b"UAG".as_slice() {
        Some(Kind::Uag)
    } else if w == b"HAG".as_slice() {
        Some(Kind::Hag)
    } else if w == b"ASG".as_slice() {
        Some(Kind::Asg)
    } else if w == b"RULE".as_slice() {
        Some(Kind::Rule)
    } else if w == b"CALC".as_slice() {
        Some(Kind::Calc)
    } else {
        None
    }
}

// A word's kind.
pub fn word_kind(w: &[u8]) -> Kind
    ensures { result ≡ word_kind w.now }
{
    match keyword(w) {
        Some(kind) => kind,
        None if is_input(w) => Kind::Inp,
        None if is_int(w) => Kind::Int,
        None if is_float(w) => Kind::Float,
        None => Kind::String,
    }
}
