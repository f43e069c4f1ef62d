// Comparing bytes, as they are or with ASCII letters in lower case.
#![tactic(auto)]

ghost use Rattle.std.specs.Prelude.{◌≡◌};
ghost use Rattle.spec_lists.specs.Text.{same, lower_byte, lowered};

// A byte, an ASCII capital as its small letter.
pub fn lower(b: u8) -> u8
    ensures { result ≡ lower_byte b }
{
    b.to_ascii_lowercase()
}

// Whether two texts are the same bytes.
// Pair by pair, and no `a == b`, which is a call of its own for each two names: names are short, and a question compares many.
#[tactic(auto, using(crate::proofs::Pairs::not_same))]
pub fn equal(a: &[u8], b: &[u8]) -> bool
    ensures { result ≡ same a.now b.now }
{
    a.len() == b.len() && a.iter().zip(b).all(|(x, y)| x == y)
}

// Whether the first text in lower case is the second.
#[tactic(auto, using(crate::proofs::Lowered::other_length))]
pub fn equal_lowered(a: &[u8], b: &[u8]) -> bool
    ensures { result ≡ same (lowered a.now) b.now }
{
    a.len() == b.len() && a.iter().zip(b).all(|(x, y)| lower(*x) == *y)
}
