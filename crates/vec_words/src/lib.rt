// The lines of vectors: their parts, and these as texts, numbers and readings.
#![tactic(auto)]

ghost use Rattle.std.specs.Prelude.{◌≤◌, length};
ghost use Rattle.io.specs.Counts.{IsPrefixLen};

use spec_calc::Reading;

// ---- lines

// Hands on each line of a text, without its newline.
pub fn for_each_line<F: FnMut(&[u8])>(s: &[u8], mut f: F)
    requires { F.IsAlwaysCallable f }
{
    let mut at = 0;
    // Stays: a step goes behind a newline, so that no `for` counts it.
    while at < s.len() {
        let end = byte_find::find(s, at, s.len(), b'\n');
        f(&s[at..end]);
        at = end + 1;
    }
}

// ---- parts, with a single b between them

// The n-th part from 0 on; an empty one where there are fewer.
pub fn part(s: &[u8], n: usize, b: u8) -> &[u8] {
    s.split(|x| *x == b).nth(n).unwrap_or(&[])
}

// Words are parted by spaces.
pub fn word(line: &[u8], n: usize) -> &[u8] {
    part(line, n, b' ')
}

// Whether no word follows the n-th.
pub fn is_last(line: &[u8], n: usize) -> bool {
    line.split(|x| *x == b' ').skip(n).count() <= 1
}

// The path of a file by its four digits and its ending.
pub fn path(name: [u8; 4], ending: [u8; 4]) -> [u8; 8] {
    let [a, b, c, d] = name;
    let [e, f, g, h] = ending;
    [a, b, c, d, e, f, g, h]
}

// ---- what they say

// The bytes of a text, as many as have room. `-`, the empty text, has no pair of digits.
pub fn decode(s: &[u8], out: &mut [u8]) -> usize
    ensures { IsPrefixLen result out.new }
{
    let n = out.len().min(s.len() / 2);
    for i in 0..n {
        out[i] = vec_bits::byte(s[2 * i], s[2 * i + 1]);
    }
    n
}

// A text of at most N bytes.
#[derive(Clone, Copy)]
pub struct Text<const N: usize> {
    bytes: [u8; N],
    len: usize,
    ghost within: { len ≤ N },
}

impl<const N: usize> Text<N> {
    pub fn read(s: &[u8]) -> Text<N> {
        let mut bytes = [0; N];
        let len = decode(s, &mut bytes);
        Text { bytes, len }
    }

    pub fn as_slice(&self) -> &[u8] {
        &self.bytes[..self.len]
    }
}

fn digit(b: u8) -> u32
    ensures { result ≤ 9 }
{
    match b {
        b'0'..=b'9' => u32::from(b - b'0'),
        _ => 0,
    }
}

pub fn number(s: &[u8]) -> u32 {
    let mut n: u32 = 0;
    for b in s {
        n = n % 100_000_000 * 10 + digit(*b);
    }
    n
}

pub fn reading(s: &[u8]) -> Reading {
    match s {
        b"-" => Reading::NeverHeard,
        b"inv" => Reading::Invalid,
        b"nan" => Reading::Value(f64::NAN),
        _ => Reading::Value(vec_bits::float(s)),
    }
}

// Those of the letters A to U, parted by b.
pub fn readings(s: &[u8], b: u8) -> [Reading; 21] {
    std::array::from_fn(|i| reading(part(s, i, b)))
}
