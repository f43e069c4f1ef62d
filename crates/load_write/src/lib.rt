// The whole table of an accepted file.
#![tactic(auto)]

ghost use Rattle.std.specs.Prelude.{◌≡◌, ◌≤◌, length};
ghost use Rattle.spec_lists.specs.Words.{spelled_out};
ghost use Rattle.spec_grammar.specs.Codes.{role_number};
ghost use Rattle.load_spans.specs.Roles.{RoleCode};
ghost use Rattle.load_flags.specs.Tokens.{size};
ghost use Rattle.byte_write.specs.Put.{Put};
ghost use Rattle.load_passes.specs.Source.{all_of};
ghost use Rattle.load_sections.specs.Sections.{from};
ghost use Rattle.load_write.specs.Header.{CountsRight, header_of};
ghost use Rattle.load_write.specs.Table.{source_table};

use load_passes::Source;
use load_sections::{AccessSections, GroupSections, RuleSections};
use load_spans::Tokens;
use spec_grammar::Role;

// How many records sections 1 to 6 have.
#[derive(Clone, Copy)]
pub struct Counts {
    pub uags: usize,
    pub hags: usize,
    pub members: usize,
    pub asgs: usize,
    pub inputs: usize,
    pub rules: usize,
}

// How many tokens have a role.
fn count(tokens: &Tokens, m: Role) -> usize
    requires { RoleCode (role_number m) }
    ensures { result ≡ size m (all_of tokens.now) }
{
    load_flags::count(tokens, 0, tokens.list.len(), m)
}

// How many of those from the first of the role q on. Members stand behind a group's name, inputs and rules behind an access group's.
fn count_from(tokens: &Tokens, q: Role, m: Role) -> usize
    requires first { RoleCode (role_number q) }
    requires counted { RoleCode (role_number m) }
    ensures exact { result ≡ size m (from q (all_of tokens.now)) }
    ensures few { result ≤ 16384 }
{
    let n = tokens.list.len();
    let a = load_flags::next(tokens, 0, n, q, q);
    load_flags::count(tokens, a, n, m)
}

fn count_all(tokens: &Tokens) -> Counts
    ensures { CountsRight (all_of tokens.now) result }
{
    let users = count_from(tokens, Role::UagName, Role::User);
    let hosts = count_from(tokens, Role::HagName, Role::Host);
    Counts {
        uags: count(tokens, Role::UagName),
        hags: count(tokens, Role::HagName),
        members: users + hosts,
        asgs: count(tokens, Role::AsgName),
        inputs: count_from(tokens, Role::AsgName, Role::Input),
        rules: count_from(tokens, Role::AsgName, Role::RuleWord),
    }
}

// The form, the whole length, and the count and place of each section. The strings are counted in bytes.
fn put_header(
    c: Counts,
    groups: GroupSections,
    access: AccessSections,
    rules: RuleSections,
    end: usize,
    lent: &mut [u8],
) -> usize
    requires { rules.cursor.at ≤ end }
    ensures { Put lent.old lent.new 0 (spelled_out (header_of c groups access rules end)) result }
{
    let p = groups.cursor;
    let q = access.cursor;
    let r = rules.cursor;
    let words = [
        1,
        end,
        c.uags,
        36,
        c.hags,
        groups.two,
        c.members,
        groups.three,
        c.asgs,
        p.at,
        c.inputs,
        access.five,
        c.rules,
        q.at,
        rules.references,
        rules.seven,
        end - r.at,
        r.at,
    ];
    byte_write::put_words(lent, 0, &words)
}

// The table of a file at the start of the lent bytes, as far as there is room. Its length is returned. Inner: load_room calls it.
pub fn table(source: &Source, lent: &mut [u8]) -> usize
    ensures { Put lent.old lent.new 0 (source_table source.now) result }
{
    let tokens = source.tokens;
    let groups = load_sections::group_sections(&tokens, lent);
    let access = load_sections::access_sections(&tokens, groups.cursor, lent);
    let rules = load_sections::rule_sections(source, access.cursor, lent);
    let named = load_sections::group_strings(&tokens, rules.cursor, lent);
    let end = load_sections::access_strings(&tokens, named, lent);
    put_header(count_all(&tokens), groups, access, rules, end, lent);
    end
}
