// Bytes and the bits of binary64 values, which vectors write in hexadecimal.
#![tactic(auto)]

ghost use Rattle.std.specs.Prelude.{◌<◌};

pub fn is_hex(b: u8) -> bool {
    matches!(b, b'0'..=b'9' | b'a'..=b'f')
}

fn hex(b: u8) -> u8
    ensures { result < 16 }
{
    match b {
        b'0'..=b'9' => b - b'0',
        b'a'..=b'f' => b - b'a' + 10,
        _ => 0,
    }
}

// Two hexadecimal digits.
pub fn byte(high: u8, low: u8) -> u8 {
    hex(high) * 16 + hex(low)
}

// The first sixteen hexadecimal digits; those that are missing count as 0.
pub fn bits(s: &[u8]) -> u64 {
    let mut n: u64 = 0;
    for i in 0..16 {
        let digit = s.get(i).copied().unwrap_or(b'0');
        n = n % 0x1000_0000_0000_0000 * 16 + u64::from(hex(digit));
    }
    n
}

// The binary64 value of those bits.
pub fn float(s: &[u8]) -> f64 {
    std::num::f64_from_bits_with_nan(bits(s))
}
