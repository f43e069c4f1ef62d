// The readings of the asker's input, as texts. 01, "Two programs".
#![tactic(auto)]

ghost use Rattle.std.specs.Prelude.{◌≡◌, ◌<◌, IfSome};
ghost use Rattle.spec_calc.specs.Symbol.{numeral_byte};
ghost use Rattle.prog_reading.specs.Reading.{number, signed, reading, named};

use byte_compare::equal;
use spec_calc::Reading;

// A letter, A as 0, and its reading.
#[derive(Clone, Copy)]
pub struct Named {
    pub letter: usize,
    pub reading: Reading,
}

fn is_figure(b: u8) -> bool
    ensures { result ≡ numeral_byte b }
{
    matches!(b, b'.' | b'0'..=b'9')
}

// A calculation's number.
fn number(s: &[u8]) -> Option<f64>
    ensures { result ≡ number s.now }
{
    if s.is_empty() || !is_figure(s[0]) {
        return None;
    }
    let (value, end) = calc_numeral::number_at(s, 0)?;
    if end == s.len() { Some(value) } else { None }
}

// A number with an optional minus.
fn signed(s: &[u8]) -> Option<f64>
    ensures { result ≡ signed s.now }
{
    match s {
        [b'-', rest @ ..] => number(rest).map(|v| -v),
        _ => number(s),
    }
}

#[tactic(auto, using(crate::specs::laws::Floats::nan_is, crate::specs::laws::Floats::inf_is, crate::specs::laws::Floats::minus_inf_is), unfolding(crate::specs::Reading::reading))]
fn reading(s: &[u8]) -> Option<Reading>
    ensures { result ≡ reading s.now }
{
    if equal(s, b"inv") {
        return Some(Reading::Invalid);
    }
    if equal(s, b"nan") {
        return Some(Reading::Value(f64::NAN));
    }
    if equal(s, b"inf") {
        return Some(Reading::Value(f64::INFINITY));
    }
    if equal(s, b"-inf") {
        return Some(Reading::Value(f64::NEG_INFINITY));
    }
    signed(s).map(Reading::Value)
}

// A letter A to U, a colon and a reading.
#[tactic(auto, unfolding(crate::specs::Reading::named))]
pub fn named_reading(s: &[u8]) -> Option<Named>
    ensures named { result ≡ named s.now }
    ensures letter { IfSome result (λ n. n.letter < 21) }
{
    let [letter @ b'A'..=b'U', b':', rest @ ..] = s else {
        return None;
    };
    let letter = usize::from(letter - b'A');
    let reading = reading(rest)?;
    Some(Named { letter, reading })
}
