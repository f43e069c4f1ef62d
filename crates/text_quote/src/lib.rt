// Whether bytes can stand between quotes.
#![tactic(auto)]

ghost use Rattle.std.specs.Prelude.{◌≡◌};
ghost use Rattle.spec_text.specs.Faults.{quotable};

// Whether a text can stand between quotes: it has no bare quote or newline, and no backslash without its byte.
pub fn quotable(s: &[u8]) -> bool
    ensures { result ≡ quotable s.now }
{
    let mut escaped = false;
    for &b in s {
        match b {
            _ if escaped => escaped = false,
            b'\\' => escaped = true,
            b'"' | b'\n' => return false,
            _ => {}
        }
    }
    !escaped // else the backslash takes the closing quote
}
