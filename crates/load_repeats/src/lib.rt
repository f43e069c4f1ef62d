// Cause 7: a name or letter given again.
#![tactic(auto)]

ghost use Rattle.std.specs.Prelude.{◌≡◌, ◌≤◌, length};
ghost use Rattle.spec_grammar.specs.Codes.{role_number};
ghost use Rattle.spec_file.specs.Refusal.{given_again};
ghost use Rattle.load_tokens.specs.Scratch.{Scratch};
ghost use Rattle.load_spans.specs.Roles.{RoleCode};
ghost use Rattle.load_spans.specs.Search.{first_in};
ghost use Rattle.load_repeats.specs.Repeated.{repeated, name_repeated};

use load_spans::{Tokens, earlier};
use spec_grammar::Role;

// The first token of a role that has the text of one before it. A token of the role stop, if that is another role, ends the
// scope of those before it.
fn repeated(t: &Tokens<'_>, role: Role, stop: Role, seen: &mut [u16]) -> Option<usize>
    requires room { length t.now.list.now ≤ length seen.old }
    requires role_code { RoleCode (role_number role) × RoleCode (role_number stop) }
    ensures { result ≡ first_in (repeated role stop) t.now.text.now t.now.list.now }
{
    let mut k = 0;
    for (i, token) in t.list.iter().enumerate() {
        if token.role == role {
            if t.position(&seen[..k], i).is_some() {
                return Some(i);
            }
            seen[k] = i as u16;
            k += 1;
        } else if token.role == stop {
            k = 0;
        }
    }
    None
}

// The first name of a group given again.
fn name_repeated(t: &Tokens<'_>, seen: &mut [u16]) -> Option<usize>
    requires { length t.now.list.now ≤ length seen.old }
    ensures { result ≡ first_in name_repeated t.now.text.now t.now.list.now }
{
    let uag = repeated(t, Role::UagName, Role::UagName, seen);
    let hag = repeated(t, Role::HagName, Role::HagName, seen);
    let asg = repeated(t, Role::AsgName, Role::AsgName, seen);
    earlier(uag, earlier(hag, asg))
}

// The first name or letter given again.
// The caller, load_causes, lends an array with an entry for each byte of the text to work in.
pub fn given_again(t: &Tokens<'_>, seen: &mut [u16]) -> Option<usize>
    requires { length t.now.list.now ≤ length seen.old }
    ensures value { result ≡ first_in given_again t.now.text.now t.now.list.now }
    ensures scratch { Scratch seen.old seen.new }
{
    let name = name_repeated(t, seen);
    let letter = repeated(t, Role::Input, Role::AsgName, seen);
    let calc = repeated(t, Role::CalcWord, Role::RuleWord, seen);
    earlier(name, earlier(letter, calc))
}
