// The parts of a line of the asker's input. 01, "Two programs".
#![tactic(auto)]

ghost use Rattle.std.specs.Prelude.{◌≡◌, ◌≤◌, ◌==◌, true, List, ℕ, [], ◌∷◌, length, position, MatchOption};
ghost use Rattle.prog_reading.specs.Reading.{was_heard};
ghost use Rattle.prog_line.specs.Line.{split, level_of, readings_named, refused, of_parts};
ghost use Rattle.prog_line.specs.Parts.{part_length, behind, no_next, Next, LevelFirst};

use spec_calc::Reading;

fn first_space(s: &[u8]) -> Option<usize>
    ensures { result ≡ position (λ b. b == 32) s.now }
{
    s.iter().position(|b| *b == b' ')
}

// How many bytes stand before the first space.
#[tactic(auto, using(crate::specs::laws::Parts::first_space))]
fn part_length(s: &[u8]) -> usize
    ensures value { result ≡ part_length s.now }
    ensures within { result ≤ length s.now }
{
    first_space(s).unwrap_or(s.len())
}

// The first part, which is not empty, and what stands behind its space.
pub fn next_part(s: &[u8]) -> Option<(&[u8], &[u8])>
    ensures { MatchOption result (no_next (split s.now) ≡ true) (λ p. Next s.now p.0.now p.1.now) }
{
    let end = part_length(s);
    if end == 0 || end == s.len() {
        return None;
    }
    Some((&s[..end], &s[end + 1..]))
}

fn digit(b: u8) -> Option<u32>
    ensures { result ≡ level_of (b ∷ []) }
{
    match b {
        b'0'..=b'9' => Some(u32::from(b - b'0')),
        _ => None,
    }
}

// The level, a first part of one digit, and what stands behind it: a space, or nothing.
pub fn level_of(s: &[u8]) -> Option<(u32, &[u8])>
    ensures { MatchOption result ((g u h : List ℕ) → of_parts (g ∷ u ∷ h ∷ split s.now) ≡ refused) (λ p. LevelFirst s.now p.0 p.1.now) }
{
    if part_length(s) != 1 {
        return None;
    }
    Some((digit(s[0])?, &s[1..]))
}

fn was_heard(r: Reading) -> bool
    ensures { result ≡ was_heard r }
{
    !matches!(r, Reading::NeverHeard)
}

// The readings that some parts name, each behind a space.
pub fn readings(s: &[u8]) -> Option<[Reading; 21]>
    ensures { result ≡ readings_named (behind s.now) }
{
    let mut readings = [Reading::NeverHeard; 21];
    let mut rest = s;
    while let [_, parts @ ..] = rest {
        let end = part_length(parts);
        let named = prog_reading::named_reading(&parts[..end])?;
        if was_heard(readings[named.letter]) {
            return None;
        }
        readings[named.letter] = named.reading;
        rest = &parts[end..];
    }
    Some(readings)
}
