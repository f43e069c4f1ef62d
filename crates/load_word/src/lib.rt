// The classes of bytes, and which words are numbers.
#![tactic(auto)]

ghost use Rattle.std.specs.Prelude.{◌≡◌, ◌≤◌, length, drop};
ghost use Rattle.spec_token.specs.Word.{name_byte};
ghost use Rattle.spec_token.specs.Scanner.{int, float, digits, exponent, fraction, lexeme_of, punctuation};
ghost use Rattle.spec_token.specs.Spans.{Span};
ghost use Rattle.load_word.specs.Class.{belongs};
ghost use Rattle.load_word.specs.Start.{start_of};
ghost use Rattle.load_word.specs.Number.{Unsigned};

use spec_token::Kind;

// What a byte between tokens begins.
#[derive(Clone, Copy)]
pub enum Start {
    Blank,
    Comment,
    Quote,
    Stop,
    Word,
    Wrong,
}

// Whether a byte may stand in a word.
fn is_name(b: u8) -> bool
    ensures { result ≡ name_byte b }
{
    // Stays: a rule of the project, byte classes are a match with ranges.
    match b {
        b'A'..=b'Z' | b'a'..=b'z' | b'0'..=b'9' => true,
        b'-'..=b'.' | b':'..=b'<' => true,
        b'_' | b'+' | b'[' | b']' | b'>' => true,
        _ => false,
    }
}

pub fn begun_by(b: u8) -> Start
    ensures { result ≡ start_of (lexeme_of b) }
{
    if is_name(b) {
        return Start::Word;
    }
    // Stays: a rule of the project, byte classes are a match with ranges.
    match b {
        b' ' | b'\t' | b'\r' | b'\n' => Start::Blank,
        b'#' => Start::Comment,
        b'"' => Start::Quote,
        b'(' | b')' | b'{' | b'}' | b',' => Start::Stop,
        _ => Start::Wrong,
    }
}

// A stop's kind.
pub fn stop_kind(b: u8) -> Kind
    ensures { result ≡ punctuation b }
{
    match b {
        b'(' => Kind::OpenParen,
        b')' => Kind::CloseParen,
        b'{' => Kind::OpenBrace,
        b'}' => Kind::CloseBrace,
        _ => Kind::Comma,
    }
}

// The classes whose runs a text is cut into: the bytes of a word, the digits, and what a comment goes on over.
// Stays: no plainer as a closure, since what is promised of a run names its class.
#[derive(Clone, Copy)]
pub enum Class {
    Name,
    Digit,
    Comment,
}

fn belongs(class: Class, b: u8) -> bool
    ensures { result ≡ belongs class b }
{
    match class {
        Class::Name => is_name(b),
        Class::Digit => b.is_ascii_digit(),
        Class::Comment => b != b'\n',
    }
}

// The end of the longest run of bytes of a class. A caller stands within the text or at its end: it has read what is before.
pub fn run_end(class: Class, s: &[u8], from: usize) -> usize
    requires { from ≤ length s.now }
    ensures { Span (belongs class) s.now from result }
{
    for i in from..s.len() {
        if !belongs(class, s[i]) {
            return i;
        }
    }
    s.len()
}

// Past a sign, if there is one.
fn sign_end(w: &[u8], at: usize) -> usize
    requires { at ≤ length w.now }
    ensures { Unsigned w.now at result }
{
    match w.get(at) {
        Some(b'+' | b'-') => at + 1,
        _ => at,
    }
}

// Digits to the end, and at least one.
fn all_digits(w: &[u8], at: usize) -> bool
    requires { at ≤ length w.now }
    ensures { result ≡ digits (drop at w.now) }
{
    let e = run_end(Class::Digit, w, at);
    at < e && e == w.len()
}

// load_kind asks this, and the next.
pub fn is_int(w: &[u8]) -> bool
    ensures { result ≡ int w.now }
{
    all_digits(w, sign_end(w, 0))
}

// No exponent, or one of digits behind the sign it may have.
fn is_exponent(w: &[u8], at: usize) -> bool
    requires { at ≤ length w.now }
    ensures { result ≡ exponent (drop at w.now) }
{
    match w.get(at) {
        None => true,
        Some(b'e' | b'E') => all_digits(w, sign_end(w, at + 1)),
        _ => false,
    }
}

// A point, digits, and an exponent.
fn is_fraction(w: &[u8], at: usize) -> bool
    requires { at ≤ length w.now }
    ensures { result ≡ fraction (drop at w.now) }
{
    match w.get(at) {
        Some(b'.') => {
            let e = run_end(Class::Digit, w, at + 1);
            at + 1 < e && is_exponent(w, e)
        }
        _ => false,
    }
}

pub fn is_float(w: &[u8]) -> bool
    ensures { result ≡ float w.now }
{
    let a = sign_end(w, 0);
    let d = run_end(Class::Digit, w, a);
    is_fraction(w, d)
}
