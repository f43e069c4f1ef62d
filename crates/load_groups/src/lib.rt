// Cause 12: a group that a rule names and that the file does not define.
#![tactic(auto)]

ghost use Rattle.std.specs.Prelude.{◌≡◌, ◌&&◌, ◌≤◌, ◌<◌, length, get_or, position, is_none};
ghost use Rattle.spec_lists.specs.Text.{same};
ghost use Rattle.spec_grammar.specs.Codes.{role_number, same_role};
ghost use Rattle.spec_file.specs.Refusal.{undefined, undefined_group};
ghost use Rattle.load_tokens.specs.Scratch.{Scratch};
ghost use Rattle.load_tokens.specs.Views.{blank};
ghost use Rattle.load_spans.specs.Roles.{RoleCode};
ghost use Rattle.load_spans.specs.Search.{first_in};
ghost use Rattle.load_spans.specs.Spans.{AmongTokens, text_of};

use load_spans::Tokens;
use spec_grammar::Role;

// Whether a token names a group, and none of those that are defined.
fn undefined_at(t: &Tokens<'_>, named: Role, defined: &[u16], i: usize) -> bool
    requires { (i < length t.now.list.now) × AmongTokens defined.now (length t.now.list.now) }
    ensures { result
        ≡ (same_role (get_or t.now.list.now i blank).role named
        && is_none (position (λ name. same (text_of t.now.text.now t.now.list.now name) (text_of t.now.text.now t.now.list.now i)) defined.now)) }
{
    t.list[i].role == named && t.position(defined, i).is_none()
}

// The first token of the role named whose text no token of the role defining has.
fn undefined(t: &Tokens<'_>, named: Role, defining: Role, names: &mut [u16]) -> Option<usize>
    requires room { length t.now.list.now ≤ length names.old }
    requires role_code { RoleCode (role_number named) × RoleCode (role_number defining) × (role_number named ≡ role_number defining → ⊥) }
    ensures { result ≡ first_in (undefined named defining) t.now.text.now t.now.list.now }
{
    let k = t.collect(defining, names);
    let defined = &names[..k];
    t.first(|i| undefined_at(t, named, defined, i))
}

// The first name of a group in a rule that the file does not define.
// The caller, load_causes, lends an array with an entry for each byte of the text to work in.
pub fn undefined_group(t: &Tokens<'_>, names: &mut [u16]) -> Option<usize>
    requires { length t.now.list.now ≤ length names.old }
    ensures value { result ≡ first_in undefined_group t.now.text.now t.now.list.now }
    ensures scratch { Scratch names.old names.new }
{
    let uag = undefined(t, Role::UagNamed, Role::UagName, names);
    let hag = undefined(t, Role::HagNamed, Role::HagName, names);
    load_spans::earlier(uag, hag)
}
