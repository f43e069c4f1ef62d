// Causes 8 and 9: the level, permission and log word in a rule's head.
#![tactic(auto)]

ghost use Rattle.std.specs.Prelude.{◌≡◌, ◌<◌, length};
ghost use Rattle.spec_file.specs.Refusal.{bad_level, unknown_word};
ghost use Rattle.load_spans.specs.Search.{first_in, applies_in};

use load_spans::Tokens;
use spec_grammar::Role;

fn bad_level_at(t: &Tokens<'_>, i: usize) -> bool
    requires { i < length t.now.list.now }
    ensures { result ≡ applies_in bad_level t.now.text.now t.now.list.now i }
{
    match t.list[i].role {
        Role::Level => load_values::level_of(t.text_of(i)).is_none(),
        _ => false,
    }
}

// The first level that is neither 0 nor 1.
pub fn bad_level(t: &Tokens<'_>) -> Option<usize>
    ensures { result ≡ first_in bad_level t.now.text.now t.now.list.now }
{
    t.first(|i| bad_level_at(t, i))
}

fn unknown_at(t: &Tokens<'_>, i: usize) -> bool
    requires { i < length t.now.list.now }
    ensures { result ≡ applies_in unknown_word t.now.text.now t.now.list.now i }
{
    match t.list[i].role {
        Role::Permission => load_values::permission_of(t.text_of(i)).is_none(),
        Role::LogOption => load_values::log_of(t.text_of(i)).is_none(),
        _ => false,
    }
}

// The first permission or log option that is no known word.
pub fn unknown_word(t: &Tokens<'_>) -> Option<usize>
    ensures { result ≡ first_in unknown_word t.now.text.now t.now.list.now }
{
    t.first(|i| unknown_at(t, i))
}
