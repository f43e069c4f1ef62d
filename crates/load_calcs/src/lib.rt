// Cause 10: a calculation not allowed.
#![tactic(auto)]

ghost use Rattle.std.specs.Prelude.{◌≡◌, true, false, ◌<◌, length, set, get_or};
ghost use Rattle.spec_lists.specs.Select.{all, holds_of};
ghost use Rattle.spec_calc.specs.Value.{letters};
ghost use Rattle.spec_calc.specs.Reader.{tree_of};
ghost use Rattle.spec_file.specs.Load.{bad_calculation};
ghost use Rattle.load_spans.specs.Search.{first_in, applies_in};
ghost use Rattle.load_calcs.specs.Input.{Gives, ahead_of, around_of};

use load_spans::Tokens;
use spec_grammar::Role;

// Whether a text is a calculation whose letters are all among those given.
fn allowed_with(s: &[u8], given: [bool; 21]) -> bool
    ensures { result ≡ holds_of (tree_of s.now) (λ t. all (λ i. get_or given i false) (letters t)) }
{
    calc_letters::letters_given(s, &given) && calc::allowed(s)
}

// A letter more; no calculation has one past the 21.
fn give(given: &mut [bool], l: usize)
    ensures { given.new ≡ set given.old l true }
{
    if l < given.len() {
        given[l] = true;
    }
}

// The letters that have an INP before the next group.
fn letters_from(t: &Tokens<'_>, from: usize) -> [bool; 21]
    ensures { Gives result (ahead_of t.now.text.now t.now.list.now from) }
{
    let mut given = [false; 21];
    for i in from..t.list.len() {
        let role = t.list[i].role;
        if role == Role::AsgName {
            return given;
        }
        if role == Role::Input {
            give(&mut given, t.letter(i));
        }
    }
    given
}

fn bad_calculation_at(t: &Tokens<'_>, i: usize, given: [bool; 21]) -> bool
    requires { (i < length t.now.list.now) × Gives given (around_of t.now.text.now t.now.list.now i) }
    ensures { result ≡ applies_in bad_calculation t.now.text.now t.now.list.now i }
{
    if t.list[i].role == Role::Calculation {
        !allowed_with(t.text_of(i), given)
    } else {
        false
    }
}

// The first calculation that is not allowed.
pub fn bad_calculation(t: &Tokens<'_>) -> Option<usize>
    ensures { result ≡ first_in bad_calculation t.now.text.now t.now.list.now }
{
    let mut given = letters_from(t, 0);
    for (i, token) in t.list.iter().enumerate() {
        if bad_calculation_at(t, i, given) {
            return Some(i);
        }
        if token.role == Role::AsgName {
            let next = letters_from(t, i + 1);
            given = next;
        }
    }
    None
}
