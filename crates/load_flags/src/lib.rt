// What stands behind a token in its clause, and the flags of a rule.
#![tactic(auto)]

ghost use Rattle.std.specs.Prelude.{◌≡◌, ◌+◌, ◌-◌, ◌≤◌, ◌<◌, length};
ghost use Rattle.spec_grammar.specs.Codes.{role_number};
ghost use Rattle.spec_file.specs.Contents.{rule_text};
ghost use Rattle.spec_table.specs.Written.{flags};
ghost use Rattle.load_tokens.specs.Views.{starts, ends, roles};
ghost use Rattle.load_spans.specs.Spans.{AmongTokens};
ghost use Rattle.load_spans.specs.Roles.{RoleCode, tally, gap};
ghost use Rattle.load_flags.specs.Flags.{level_bits, permission_bits, trap_bits, off_bits};
ghost use Rattle.load_flags.specs.Tokens.{part, first_text, number_at};

use load_spans::Tokens;
use spec_grammar::Role;
use spec_rule::Access;

// How many tokens of a part have a role. Callers have a part of the kept tokens, which ends within them.
pub fn count(t: &Tokens<'_>, from: usize, to: usize, role: Role) -> usize
    requires { to ≤ length t.now.list.now }
    ensures { result ≡ tally (role_number role) (roles t.now.list.now) from (to - from) }
{
    let mut k = 0;
    for i in from..to {
        if t.list[i].role == role {
            k += 1;
        }
    }
    k
}

// The first token of a part that has one of two roles, or the part's end. Inner: callers have such a part too, as of count.
// Stays: a number and no Option, as callers ask where a part ends, and one without such a token ends where they say.
pub fn next(t: &Tokens<'_>, from: usize, to: usize, a: Role, b: Role) -> usize
    requires { to ≤ length t.now.list.now }
    ensures { result ≡ from + gap (role_number a) (role_number b) (roles t.now.list.now) from (to - from) }
{
    for i in from..to {
        let role = t.list[i].role;
        if role == a || role == b {
            return i;
        }
    }
    from.max(to)
}

// The first text of a role in a part, or an empty one. Callers have the part from next, and ask for a role that is one.
pub fn first_text<'a>(t: &Tokens<'a>, from: usize, to: usize, role: Role) -> &'a [u8]
    requires { (to ≤ length t.now.list.now) × RoleCode (role_number role) }
    ensures { result.now ≡ first_text role (part t.now.text.now t.now.list.now from to) }
{
    let i = next(t, from, to, role, role);
    if i < to { t.text_of(i) } else { b"" }
}

// In a table the number of a group that is not defined.
const UNDEFINED: usize = 65535;

// The number of the first group that has a token's text for its name, or UNDEFINED. The caller, load_records::Reference::put,
// is given a token and groups of the same file.
pub fn number_of(t: &Tokens<'_>, names: &[u16], i: usize) -> usize
    requires { (i < length t.now.list.now) × AmongTokens names.now (length t.now.list.now) }
    ensures { result ≡ number_at t.now.text.now (starts t.now.list.now) (ends t.now.list.now) names.now i }
{
    t.position(names, i).unwrap_or(UNDEFINED)
}

// ---- the flags of a rule

fn level_bits(t: &Tokens<'_>, from: usize, to: usize) -> usize
    requires { to ≤ length t.now.list.now }
    ensures { result ≡ level_bits (part t.now.text.now t.now.list.now from to) }
{
    match load_values::level_of(first_text(t, from, to, Role::Level)) {
        Some(level) => level,
        None => 0,
    }
}

fn permission_bits(t: &Tokens<'_>, from: usize, to: usize) -> usize
    requires { to ≤ length t.now.list.now }
    ensures { result ≡ permission_bits (part t.now.text.now t.now.list.now from to) }
{
    match load_values::permission_of(first_text(t, from, to, Role::Permission)) {
        Some(Access::Write) => 4,
        Some(Access::Read) => 2,
        Some(Access::None) | None => 0,
    }
}

fn trap_bits(t: &Tokens<'_>, from: usize, to: usize) -> usize
    requires { to ≤ length t.now.list.now }
    ensures { result ≡ trap_bits (part t.now.text.now t.now.list.now from to) }
{
    match load_values::log_of(first_text(t, from, to, Role::LogOption)) {
        Some(true) => 8,
        Some(false) | None => 0,
    }
}

// A rule with an unknown predicate is switched off.
fn off_bits(t: &Tokens<'_>, from: usize, to: usize) -> usize
    requires { to ≤ length t.now.list.now }
    ensures { result ≡ off_bits (tally 17 (roles t.now.list.now) from (to - from)) }
{
    if count(t, from, to, Role::UnknownPredicate) == 0 {
        0
    } else {
        16
    }
}

// All of them. The caller, load_records::Rule::put, has the part from next.
pub fn flags_of(t: &Tokens<'_>, from: usize, to: usize) -> usize
    requires { to ≤ length t.now.list.now }
    ensures { result ≡ flags (rule_text (part t.now.text.now t.now.list.now from to)) }
{
    let level = level_bits(t, from, to);
    let permission = permission_bits(t, from, to);
    let trap = trap_bits(t, from, to);
    level + permission + trap + off_bits(t, from, to)
}
