// Causes 5 and 6: a string too long, a limit of the table passed.
#![tactic(auto)]

ghost use Rattle.std.specs.Prelude.{◌≡◌, ◌<◌, length};
ghost use Rattle.spec_file.specs.Limit.{longest, order, most, item_of};
ghost use Rattle.spec_file.specs.Refusal.{too_long, too_many};
ghost use Rattle.load_spans.specs.Search.{first_in, applies_in};
ghost use Rattle.load_limits.specs.Limit.{known, section_of, as_section};

use load_spans::Tokens;
use spec_grammar::Role;

// How long a text may be, by what it says.
fn longest(role: Role) -> Option<usize>
    ensures { result ≡ known (longest role) }
{
    match role {
        Role::UagName | Role::HagName | Role::AsgName | Role::UagNamed | Role::HagNamed => Some(60),
        Role::User | Role::Host | Role::Pvname => Some(60),
        Role::Calculation => Some(79),
        _ => None,
    }
}

fn too_long_at(t: &Tokens<'_>, i: usize) -> bool
    requires { i < length t.now.list.now }
    ensures { result ≡ applies_in too_long t.now.text.now t.now.list.now i }
{
    match longest(t.list[i].role) {
        Some(most) => most < t.long(i),
        None => false,
    }
}

// The first token whose text is longer than its role allows.
pub fn too_long(t: &Tokens<'_>) -> Option<usize>
    ensures { result ≡ first_in too_long t.now.text.now t.now.list.now }
{
    t.first(|i| too_long_at(t, i))
}

// The sections of a table, in their order.
#[derive(Clone, Copy)]
enum Section {
    UserGroups,
    HostGroups,
    Members,
    AccessGroups,
    Inputs,
    Rules,
    References,
}

// The section in which a token is an item, by what it says.
fn section_of(role: Role) -> Option<Section>
    ensures { result ≡ section_of (item_of role) }
{
    match role {
        Role::UagName => Some(Section::UserGroups),
        Role::HagName => Some(Section::HostGroups),
        Role::User | Role::Host => Some(Section::Members),
        Role::AsgName => Some(Section::AccessGroups),
        Role::Input => Some(Section::Inputs),
        Role::RuleWord => Some(Section::Rules),
        Role::UagNamed | Role::HagNamed => Some(Section::References),
        _ => None,
    }
}

// How many items it may have.
fn most(section: Section) -> usize
    ensures { result ≡ most (as_section section) }
{
    match section {
        Section::UserGroups | Section::HostGroups | Section::AccessGroups => 64,
        Section::Members | Section::References => 1024,
        Section::Inputs => 512,
        Section::Rules => 256,
    }
}

fn order(section: Section) -> usize
    ensures { result ≡ order (as_section section) }
{
    section as usize
}

// The first item that passes the limit of its section.
pub fn too_many(t: &Tokens<'_>) -> Option<usize>
    ensures { result ≡ first_in too_many t.now.text.now t.now.list.now }
{
    let mut counts = [0usize; 7];
    for (i, token) in t.list.iter().enumerate() {
        if let Some(section) = section_of(token.role) {
            let k = order(section);
            if most(section) <= counts[k] {
                return Some(i);
            }
            counts[k] += 1;
        }
    }
    None
}
