// A number in a calculation's text.
#![tactic(auto)]

ghost use Rattle.std.specs.Prelude.{◌≡◌, ℕ, ◌+◌, ◌-◌, ◌^◌, ◌<◌, ◌≤◌, true, List, [], ◌∷◌, length, slice_index, slice_get, ◌↔◌, IsTrue};
ghost use Rattle.spec_lists.specs.Text.{digit, whole};
ghost use Rattle.spec_calc.specs.Symbol.{decimal, numeral_byte};
ghost use Rattle.calc_numeral.specs.Numeral.{Counts, Fraction, Numbered};

// Digits: the number they make, the offset behind them, and how many more were allowed.
#[derive(Clone, Copy)]
pub struct Digits {
    pub number: u64,
    pub end: usize,
    pub left: usize,
}

// Whether the byte b stands at an offset.
pub fn stands_at(s: &[u8], at: usize, b: u8) -> bool
    ensures { IsTrue result ↔ (slice_get s.now at ≡ Some b) }
{
    s.get(at) == Some(&b)
}

// The divisor of a number with k digits behind its point: multiplied out in whole numbers.
#[tactic(auto, using(crate::specs::laws::Digits::ten_fits))]
fn ten_to(k: usize) -> u64
    requires { k ≤ 15 }
    ensures { result ≡ 10 ^ k }
{
    10_u64.pow(k as u32)
}

// Both are exact, so one division rounds once.
fn decimal_of(n: u64, places: usize) -> f64
    requires { places ≤ 15 }
    ensures { result ≡ decimal n places }
{
    std::num::nearest_u64_to_f64(n) / std::num::nearest_u64_to_f64(ten_to(places))
}

// The number n with the digit b behind it.
fn pushed(n: u64, b: u8) -> u64
    requires { (n < 10 ^ 15) × (digit b ≡ true) }
    ensures { result ≡ whole n (b ∷ []) }
{
    n * 10 + u64::from(b - b'0')
}

// The digits from an offset on, `left` of them at most, behind those that make up n; none if there are more.
fn digits_at(s: &[u8], at: usize, left: usize, n: u64) -> Option<Digits>
    requires { (at ≤ length s.now) × (left ≤ 15) × (n < 10 ^ (15 - left)) }
    ensures { Counts s.now at left n result }
{
    let mut d = Digits {
        number: n,
        end: at,
        left,
    };
    for b in &s[at..] {
        if !b.is_ascii_digit() {
            return Some(d);
        }
        if d.left == 0 {
            return None;
        }
        d = Digits {
            number: pushed(d.number, *b),
            end: d.end + 1,
            left: d.left - 1,
        };
    }
    Some(d)
}

// The digits behind a point, and the offset behind them; a second point is no number's.
fn fraction_at(s: &[u8], at: usize, left: usize, n: u64) -> Option<(f64, usize)>
    requires { (at ≤ length s.now) × (left ≤ 15) × (n < 10 ^ (15 - left)) }
    ensures { (w : List ℕ) → length w + left ≡ 15 → n ≡ whole 0 w → Fraction s.now at w result }
{
    let d = digits_at(s, at, left, n)?;
    if d.end == at || stands_at(s, d.end, b'.') {
        return None;
    }
    Some((decimal_of(d.number, left - d.left), d.end))
}

// The number that begins at an offset, and the offset behind it. calc_symbol and prog_reading call it where they have seen a digit or a point.
pub fn number_at(s: &[u8], at: usize) -> Option<(f64, usize)>
    requires { (at < length s.now) × (numeral_byte (slice_index s.now at) ≡ true) }
    ensures { Numbered s.now at result }
{
    let d = digits_at(s, at, 15, 0)?;
    if stands_at(s, d.end, b'.') {
        return fraction_at(s, d.end + 1, d.left, d.number);
    }
    Some((decimal_of(d.number, 0), d.end))
}
