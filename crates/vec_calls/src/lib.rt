// The lines of a register's script: which call a line is. vec_words says what its words are.
#![tactic(auto)]

use vec_words::word;

// Room for every text of a line; the longest file of rules that a load reads, and one byte.
pub const MOST_TEXT: usize = 16385;

// Which call a line is.
#[derive(Clone, Copy)]
pub enum Call {
    Load,
    Add,
    Change,
    Remove,
    Set,
}

// ---- forms

// What a word is.
#[derive(Clone, Copy)]
enum Kind {
    Text,
    Number,
    Reading,
}

fn all_hex(s: &[u8]) -> bool {
    s.iter().all(|b| vec_bits::is_hex(*b))
}

// Pairs of hexadecimal digits, for as many bytes as there is room for; or `-`.
fn is_text(s: &[u8]) -> bool {
    s == b"-".as_slice()
        || !s.is_empty() && s.len() % 2 == 0 && s.len() / 2 <= MOST_TEXT && all_hex(s)
}

// At most nine decimal digits.
fn is_number(s: &[u8]) -> bool {
    !s.is_empty() && s.len() < 10 && s.iter().all(|b| b.is_ascii_digit())
}

fn is_reading(s: &[u8]) -> bool {
    match s {
        b"-" | b"inv" | b"nan" => true,
        _ => s.len() == 16 && all_hex(s),
    }
}

fn is_kind(s: &[u8], kind: Kind) -> bool {
    match kind {
        Kind::Text => is_text(s),
        Kind::Number => is_number(s),
        Kind::Reading => is_reading(s),
    }
}

// Whether the words behind the first have some kinds.
fn have_kinds(line: &[u8], kinds: &[Kind]) -> bool {
    kinds
        .iter()
        .enumerate()
        .all(|(i, kind)| is_kind(word(line, i + 1), *kind))
}

fn has_form(line: &[u8], name: &[u8], kinds: &[Kind]) -> bool {
    word(line, 0) == name && vec_words::is_last(line, kinds.len()) && have_kinds(line, kinds)
}

// None where a line has no call's form.
pub fn call_of(line: &[u8]) -> Option<Call> {
    use Kind::{Number, Reading, Text};
    if has_form(line, b"load", &[Text]) {
        return Some(Call::Load);
    }
    if has_form(line, b"add", &[Text, Number, Text, Text]) {
        return Some(Call::Add);
    }
    if has_form(line, b"change", &[Number, Text, Number, Text, Text]) {
        return Some(Call::Change);
    }
    if has_form(line, b"remove", &[Number]) {
        return Some(Call::Remove);
    }
    if has_form(line, b"set", &[Text, Number, Reading]) {
        return Some(Call::Set);
    }
    None
}
