// The values that a file spells as text: levels, permissions and log options.
#![tactic(auto)]

ghost use Rattle.std.specs.Prelude.{◌≡◌, min};
ghost use Rattle.spec_lists.specs.Text.{whole};
ghost use Rattle.spec_file.specs.Contents.{level_of, permission_of, log_of};
ghost use Rattle.load_values.specs.Known.{known, level_by};

use spec_rule::Access;

// The whole number that digits spell, 2 for any greater one.
fn small_whole(digits: &[u8]) -> usize
    ensures { result ≡ min 2 (whole 0 digits.now) }
{
    let mut value = 0;
    for digit in digits {
        value = value * 10 + usize::from(digit.saturating_sub(b'0'));
        if 1 < value {
            return 2;
        }
    }
    value
}

// The level that a text spells behind its sign.
fn level_from(digits: &[u8], negative: bool) -> Option<usize>
    ensures { result ≡ known (level_by (whole 0 digits.now) negative) }
{
    match small_whole(digits) {
        0 => Some(0),
        1 if !negative => Some(1),
        _ => None,
    }
}

// A level counts by its value: `+1`, `01` and `-0` are levels, `-1` is not.
pub fn level_of(t: &[u8]) -> Option<usize>
    ensures { result ≡ known (level_of t.now) }
{
    match t {
        [b'+', digits @ ..] => level_from(digits, false),
        [b'-', digits @ ..] => level_from(digits, true),
        _ => level_from(t, false),
    }
}

// NONE, READ or WRITE.
pub fn permission_of(t: &[u8]) -> Option<Access>
    ensures { result ≡ known (permission_of t.now) }
{
    if byte_compare::equal(t, b"NONE") {
        Some(Access::None)
    } else if byte_compare::equal(t, b"READ") {
        Some(Access::Read)
    } else if byte_compare::equal(t, b"WRITE") {
        Some(Access::Write)
    } else {
        None
    }
}

// NOTRAPWRITE or TRAPWRITE.
pub fn log_of(t: &[u8]) -> Option<bool>
    ensures { result ≡ known (log_of t.now) }
{
    if byte_compare::equal(t, b"NOTRAPWRITE") {
        Some(false)
    } else if byte_compare::equal(t, b"TRAPWRITE") {
        Some(true)
    } else {
        None
    }
}
