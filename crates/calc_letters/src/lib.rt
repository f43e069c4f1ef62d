// The letters of a calculation by its bytes: whether all are among those given, and the lowest whose reading is bad.
#![tactic(auto)]

ghost use Rattle.std.specs.Prelude.{◌≡◌, []};
ghost use Rattle.spec_lists.specs.Select.{all};
ghost use Rattle.spec_calc.specs.Scanner.{start};
ghost use Rattle.spec_calc.specs.Value.{lowest};
ghost use Rattle.calc_letters.specs.Letters.{given_letter, letter_begun, byte_letters, bad_among, as_found};

use calc_symbol::Class;

// Whether a byte is no letter, or one of those given.
fn byte_given(b: u8, given: &[bool; 21]) -> bool
    ensures { result ≡ all (given_letter given.now) (letter_begun (start b [])) }
{
    match calc_symbol::class_of(b) {
        Class::Letter(i) => given[usize::from(i)],
        _ => true,
    }
}

// Whether each letter is among those given. A byte is enough to see a letter, so no symbols are read.
pub fn letters_given(s: &[u8], given: &[bool; 21]) -> bool
    ensures { result ≡ all (given_letter given.now) (byte_letters s.now) }
{
    s.iter().all(|b| byte_given(*b, given))
}

// The letter that a byte is, if it is one whose reading is bad.
fn bad_letter(b: u8, goods: &[bool; 21]) -> Option<u8>
    ensures { result ≡ bad_among goods.now (letter_begun (start b [])) }
{
    match calc_symbol::class_of(b) {
        Class::Letter(i) => { if goods[usize::from(i)] { None } else { Some(i) } }
        _ => None,
    }
}

// The lowest letter whose reading is bad, in either branch, if one is. None is lower than A, so a bad A that is named is enough: its byte shows
// it, and no letter is taken for that.
pub fn lowest_bad(s: &[u8], goods: &[bool; 21]) -> Option<u8>
    ensures { as_found result ≡ lowest (given_letter goods.now) (byte_letters s.now) }
{
    if !goods[0] && s.iter().any(|b| *b == b'A' || *b == b'a') {
        return Some(0);
    }
    s.iter().filter_map(|b| bad_letter(*b, goods)).min()
}
