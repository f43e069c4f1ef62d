// The warnings of an accepted file.
#![tactic(auto)]

ghost use Rattle.std.specs.Prelude.{◌≡◌, length};
ghost use Rattle.spec_grammar.specs.Codes.{role_number};
ghost use Rattle.spec_file.specs.Warning.{number};
ghost use Rattle.load_tokens.specs.Views.{places, roles};
ghost use Rattle.load_warnings.specs.Code.{code, code_given};
ghost use Rattle.load_warnings.specs.Filled.{warnings_of, wrote, Filled};

use load_tokens::Token;
use spec_file::Warning;
use spec_grammar::Role;

// The warning of a token, by its role.
fn warning_of(role: Role) -> Option<Warning>
    ensures { code_given result ≡ code (role_number role) }
{
    match role {
        Role::UnknownItem => Some(Warning::UnknownItem),
        Role::UnknownPredicate => Some(Warning::UnknownPredicate),
        _ => None,
    }
}

// Its number: spec_file/specs/Warning.antt.
fn number(warning: Warning) -> u8
    ensures { result ≡ number warning }
{
    match warning {
        Warning::UnknownItem => 1,
        Warning::UnknownPredicate => 2,
    }
}

// What the k-th warning has, if skip stand before it and there is room.
fn put<T: Copy>(values: &mut [T], skip: usize, k: usize, value: T)
    ensures { values.new ≡ wrote skip k values.old value }
{
    if skip <= k {
        if k - skip < values.len() {
            values[k - skip] = value;
        }
    }
}

// The warnings of the tokens of an accepted file, from the skip-th on, as many as there is room for, and how many there are.
pub fn warnings(list: &[Token], skip: usize, numbers: &mut [u8], at: &mut [u16]) -> usize
    ensures { Filled (warnings_of (places list.now) (roles list.now) (length list.now)) skip
        numbers.old numbers.new at.old at.new result }
{
    let mut k = 0;
    for token in list {
        if let Some(warning) = warning_of(token.role) {
            put(numbers, skip, k, number(warning));
            put(at, skip, k, token.place);
            k += 1;
        }
    }
    k
}

// How many warnings they have.
pub fn count(list: &[Token]) -> usize
    ensures { result ≡ length (warnings_of (places list.now) (roles list.now) (length list.now)) }
{
    warnings(list, 0, &mut [], &mut [])
}
