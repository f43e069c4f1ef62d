// Which symbol of a calculation comes next.
#![tactic(auto)]

ghost use Rattle.std.specs.Prelude.{◌≡◌, List, [], ◌∷◌, ℕ, ◌≤◌, ◌<◌, length, slice_index};
ghost use Rattle.spec_lists.specs.Text.{among};
ghost use Rattle.spec_calc.specs.Scanner.{start, spelling};
ghost use Rattle.spec_calc.specs.Expression.{level};
ghost use Rattle.calc_symbol.specs.Scan.{symbol_of, single, started, ClassOk, single_as, pair_as, PairAt, SignOnly, SymbolAt, SignAt, BlanksTo};
ghost use Rattle.calc_symbol.specs.Lookahead.{Begins, Joins, MarkAt, IsEnd};

use spec_calc::Operator;

// What a byte of a calculation is, by itself.
#[derive(Clone, Copy)]
pub enum Class {
    Blank,
    Figure,
    Letter(u8),
    Other,
}

// A symbol of a calculation that is neither a number nor a letter.
#[derive(Clone, Copy)]
pub enum Sign {
    Operator(Operator),
    Not,
    Question,
    Colon,
    Open,
    Close,
}

// What an operand begins with.
#[derive(Clone, Copy)]
pub enum First {
    Number(f64),
    Letter(u8),
    Minus,
    Not,
    Open,
}

// What continues behind an operand.
#[derive(Clone, Copy)]
pub enum Joint {
    By(Operator),
    Choice,
}

// The class of a byte: enough to see a letter without reading the symbols before it.
// Stays: a byte class is a match with ranges, a rule of the project (01, "Forms for each place").
pub fn class_of(b: u8) -> Class
    ensures { ((s : List ℕ) → start b s ≡ started result b s) × ClassOk result }
{
    match b {
        b'\t' | b' ' => Class::Blank,
        b'.' | b'0'..=b'9' => Class::Figure,
        b'A'..=b'U' => Class::Letter(b - b'A'),
        b'a'..=b'u' => Class::Letter(b - b'a'),
        _ => Class::Other,
    }
}

// The operators of two bytes.
#[tactic(auto, using(crate::specs::laws::Bytes::no_pair, crate::specs::laws::Bytes::spelled_or, crate::specs::laws::Bytes::spelled_and, crate::specs::laws::Bytes::spelled_at_most, crate::specs::laws::Bytes::spelled_at_least, crate::specs::laws::Bytes::spelled_equal, crate::specs::laws::Bytes::spelled_differs))]
fn pair_of(b: u8, d: u8) -> Option<Operator>
    ensures { pair_as result (single b) ≡ spelling b (d ∷ []) }
{
    match (b, d) {
        (b'|', b'|') => Some(Operator::Or),
        (b'&', b'&') => Some(Operator::And),
        (b'<', b'=') => Some(Operator::AtMost),
        (b'>', b'=') => Some(Operator::AtLeast),
        (b'=', b'=') => Some(Operator::Equal),
        (b'!', b'=') => Some(Operator::Differs),
        _ => None,
    }
}

// The operator of two bytes that stands at an offset.
fn pair_at(s: &[u8], at: usize) -> Option<Operator>
    requires { at ≤ length s.now }
    ensures { PairAt s.now at result }
{
    let b = *s.get(at)?;
    let d = *s.get(at + 1)?;
    pair_of(b, d)
}

// The signs of one byte.
#[tactic(auto, using(crate::specs::laws::Bytes::no_single), unfolding(crate::specs::Scan::single))]
fn single_of(b: u8) -> Option<Sign>
    ensures { single_as result ≡ single b }
{
    match b {
        b'<' => Some(Sign::Operator(Operator::Less)),
        b'>' => Some(Sign::Operator(Operator::More)),
        b'=' => Some(Sign::Operator(Operator::Equal)),
        b'#' => Some(Sign::Operator(Operator::Differs)),
        b'+' => Some(Sign::Operator(Operator::Plus)),
        b'-' => Some(Sign::Operator(Operator::Minus)),
        b'*' => Some(Sign::Operator(Operator::Times)),
        b'/' => Some(Sign::Operator(Operator::Over)),
        b'!' => Some(Sign::Not),
        b'?' => Some(Sign::Question),
        b':' => Some(Sign::Colon),
        b'(' => Some(Sign::Open),
        b')' => Some(Sign::Close),
        _ => None,
    }
}

// The sign at an offset, the longest first, and the offset behind it.
fn sign_at(s: &[u8], at: usize) -> Option<(Sign, usize)>
    requires { at ≤ length s.now }
    ensures { SignAt s.now at result }
{
    if let Some(o) = pair_at(s, at) {
        return Some((Sign::Operator(o), at + 2));
    }
    let b = *s.get(at)?;
    let x = single_of(b)?;
    Some((x, at + 1))
}

fn is_blank(b: u8) -> bool
    ensures { result ≡ among " \t" b }
{
    b == b' ' || b == b'\t'
}

// The first offset from here on that is not blank. What stands there is seen by its bytes, without making a symbol of it.
fn skip_blanks(s: &[u8], at: usize) -> usize
    requires { at ≤ length s.now }
    ensures { BlanksTo s.now at result }
{
    for (i, b) in s[at..].iter().enumerate() {
        if !is_blank(*b) {
            return at + i;
        }
    }
    s.len()
}

// How tight an operator is; a conditional is looser than all of them.
pub fn level_of(o: Operator) -> usize
    ensures { result ≡ level o }
{
    match o {
        Operator::Or => 0,
        Operator::And => 1,
        Operator::Less
        | Operator::AtMost
        | Operator::More
        | Operator::AtLeast
        | Operator::Equal
        | Operator::Differs => 2,
        Operator::Plus | Operator::Minus => 3,
        Operator::Times | Operator::Over => 4,
    }
}

// An operand's first sign, and the offset behind it; != is none.
fn first_other(s: &[u8], at: usize) -> Option<(First, usize)>
    requires { (at < length s.now) × SignOnly s.now at }
    ensures { Begins s.now at result }
{
    match s[at] {
        b'-' => Some((First::Minus, at + 1)),
        b'(' => Some((First::Open, at + 1)),
        b'!' => {
            if calc_numeral::stands_at(s, at + 1, b'=') {
                None
            } else {
                Some((First::Not, at + 1))
            }
        }
        _ => None,
    }
}

// What begins an operand from an offset on, and the offset behind that. calc_value calls it, and the next three, at 0 or behind what it has read.
pub fn first_at(s: &[u8], at: usize) -> Option<(First, usize)>
    requires { at ≤ length s.now }
    ensures { Begins s.now at result }
{
    let p = skip_blanks(s, at);
    let b = *s.get(p)?;
    match class_of(b) {
        Class::Blank => None,
        Class::Figure => {
            let (v, n) = calc_numeral::number_at(s, p)?;
            Some((First::Number(v), n))
        }
        Class::Letter(i) => Some((First::Letter(i), p + 1)),
        Class::Other => first_other(s, p),
    }
}

// What a sign does behind an operand, for a reader at level l, and the offset p behind the sign.
fn joint_sign(x: Sign, p: usize, l: usize) -> Option<(Joint, usize)>
    ensures { (s : List ℕ) (at : ℕ) → SymbolAt s at (symbol_of x) p → Joins s at l result }
{
    match x {
        Sign::Operator(o) => {
            if l <= level_of(o) {
                Some((Joint::By(o), p))
            } else {
                None
            }
        }
        Sign::Question => {
            if l == 0 {
                Some((Joint::Choice, p))
            } else {
                None
            }
        }
        _ => None,
    }
}

// What continues behind an operand, for a reader at level l, and the offset behind that.
pub fn joint_at(s: &[u8], at: usize, l: usize) -> Option<(Joint, usize)>
    requires { at ≤ length s.now }
    ensures { Joins s.now at l result }
{
    let p = skip_blanks(s, at);
    let (x, n) = sign_at(s, p)?;
    joint_sign(x, n, l)
}

// The offset behind the byte b, if b comes next. calc_value looks so for the `:` and the `)` that it awaits.
pub fn mark_at(s: &[u8], at: usize, b: u8) -> Option<usize>
    requires { at ≤ length s.now }
    ensures { MarkAt s.now at b result }
{
    let p = skip_blanks(s, at);
    if calc_numeral::stands_at(s, p, b) {
        Some(p + 1)
    } else {
        None
    }
}

// Whether only blanks are left.
#[tactic(auto, using(crate::specs::laws::Lookaheads::end_by))]
pub fn is_end(s: &[u8], at: usize) -> bool
    requires { at ≤ length s.now }
    ensures { IsEnd s.now at result }
{
    skip_blanks(s, at) == s.len()
}
