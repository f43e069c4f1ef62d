// The records or strings for all tokens of a role.
#![tactic(auto)]

mod source;

ghost use Rattle.std.specs.Prelude.{◌≡◌, ◌<◌, ◌≤◌, length};
ghost use Rattle.spec_grammar.specs.declared.Role.TheVariants.{UagNamed, HagNamed};
ghost use Rattle.load_spans.specs.Spans.{AmongTokens};
ghost use Rattle.load_records.specs.Cursor.{Bounded};
ghost use Rattle.load_passes.specs.Passed.{rule_limit, references_limit, Start, Passed, RulePassed, ReferencesPassed};

use load_records::{Alone, Cursor, Entry};
use load_spans::Tokens;
pub use source::Source;
use spec_grammar::Role;

// What is written for the tokens of a role in a part. Inner: the functions of load_sections call it, with the tokens of a file and a cursor
// whose bound they hand on from section to section.
pub fn pass<E: Entry>(
    entry: &E,
    tokens: &Tokens,
    from: usize,
    to: usize,
    role: Role,
    cursor: Cursor,
    lent: &mut [u8],
) -> Cursor
    requires start { Start tokens.now to role (E.part entry.now role) cursor }
    requires listed { AmongTokens (E.names entry.now) (length tokens.now.list.now) }
    ensures { Passed E.work role (E.part entry.now role) (E.names entry.now) tokens.now from to lent.old lent.new cursor result }
{
    let mut p = cursor;
    for i in from..to {
        if tokens.list[i].role == role {
            p = entry.put(tokens, i, to, role, p, lent);
        }
    }
    p
}

// What is written for a rule's references to user groups, then for those to host groups.
fn rule_references<E: Alone>(
    users: &E,
    hosts: &E,
    tokens: &Tokens,
    i: usize,
    cursor: Cursor,
    lent: &mut [u8],
) -> Cursor
    requires here { i < length tokens.now.list.now }
    requires listed_users { AmongTokens (E.names users.now) (length tokens.now.list.now) }
    requires listed_hosts { AmongTokens (E.names hosts.now) (length tokens.now.list.now) }
    requires bounded { Bounded rule_limit cursor }
    ensures { RulePassed E.work tokens.now (E.names users.now) (E.names hosts.now) i lent.old lent.new cursor result }
{
    let a = i + 1;
    let e = load_flags::next(tokens, a, tokens.list.len(), Role::RuleWord, Role::AsgName);
    let p = pass(users, tokens, a, e, Role::UagNamed, cursor, lent);
    pass(hosts, tokens, a, e, Role::HagNamed, p, lent)
}

// And for those of all rules. Inner: the functions of load_sections call it, as they call pass, with entries to which no other tokens belong.
pub fn references_alone<E: Alone>(
    users: &E,
    hosts: &E,
    tokens: &Tokens,
    from: usize,
    cursor: Cursor,
    lent: &mut [u8],
) -> Cursor
    requires listed_users { AmongTokens (E.names users.now) (length tokens.now.list.now) }
    requires listed_hosts { AmongTokens (E.names hosts.now) (length tokens.now.list.now) }
    requires bounded { Bounded references_limit cursor }
    ensures { ReferencesPassed E.work tokens.now (E.names users.now) (E.names hosts.now) from lent.old lent.new cursor result }
{
    let mut p = cursor;
    for i in from..tokens.list.len() {
        if tokens.list[i].role == Role::RuleWord {
            p = rule_references(users, hosts, tokens, i, p, lent);
        }
    }
    p
}

// What is written for a rule's references, by entries whose type doesn't say that to a reference belongs its own role.
// Stays: this and references are rule_references and references_alone but for the clause parts. There the type says it, so that load_sections
// has nothing to prove; here less is asked of the type.
fn rule_by<E: Entry>(
    users: &E,
    hosts: &E,
    tokens: &Tokens,
    i: usize,
    cursor: Cursor,
    lent: &mut [u8],
) -> Cursor
    requires here { i < length tokens.now.list.now }
    requires parts { (E.part users.now UagNamed ≡ UagNamed) × (E.part hosts.now HagNamed ≡ HagNamed) }
    requires listed_users { AmongTokens (E.names users.now) (length tokens.now.list.now) }
    requires listed_hosts { AmongTokens (E.names hosts.now) (length tokens.now.list.now) }
    requires bounded { Bounded rule_limit cursor }
    ensures { RulePassed E.work tokens.now (E.names users.now) (E.names hosts.now) i lent.old lent.new cursor result }
{
    let a = i + 1;
    let end = load_flags::next(tokens, a, tokens.list.len(), Role::RuleWord, Role::AsgName);
    let behind = pass(users, tokens, a, end, Role::UagNamed, cursor, lent);
    pass(hosts, tokens, a, end, Role::HagNamed, behind, lent)
}

// And for those of all rules. Inner: for who writes by a Group, a FirstText or an entry of another crate, and knows of that value what Alone
// says of a type; with the tokens of a file and a cursor whose bound he hands on, as load_sections has them.
pub fn references<E: Entry>(
    users: &E,
    hosts: &E,
    tokens: &Tokens,
    from: usize,
    cursor: Cursor,
    lent: &mut [u8],
) -> Cursor
    requires parts { (E.part users.now UagNamed ≡ UagNamed) × (E.part hosts.now HagNamed ≡ HagNamed) }
    requires listed_users { AmongTokens (E.names users.now) (length tokens.now.list.now) }
    requires listed_hosts { AmongTokens (E.names hosts.now) (length tokens.now.list.now) }
    requires bounded { Bounded references_limit cursor }
    ensures { ReferencesPassed E.work tokens.now (E.names users.now) (E.names hosts.now) from lent.old lent.new cursor result }
{
    let mut p = cursor;
    let n = tokens.list.len();
    for i in from..n {
        if tokens.list[i].role == Role::RuleWord {
            p = rule_by(users, hosts, tokens, i, p, lent);
        }
    }
    p
}

#[cfg(test)]
mod tests {
    use super::*;
    use load_records::{Group, Reference};
    use load_tokens::Token;
    use spec_token::Kind;

    const NOWHERE: Cursor = Cursor {
        at: 0,
        string: 0,
        first: 0,
        second: 0,
    };

    // A rule that names the host group bc, then the user group a.
    const RULE: [Token; 3] = [
        Token {
            kind: Kind::Rule,
            role: Role::RuleWord,
            place: 0,
            start: 0,
            end: 4,
        },
        Token {
            kind: Kind::String,
            role: Role::HagNamed,
            place: 4,
            start: 4,
            end: 6,
        },
        Token {
            kind: Kind::String,
            role: Role::UagNamed,
            place: 6,
            start: 6,
            end: 7,
        },
    ];

    // Entries whose type doesn't say that to a reference belongs its own role, but which the caller has made so.
    #[test]
    fn by_entries_of_that_role(rt: HostRuntime) {
        let tokens = Tokens {
            text: b"RULEbca",
            list: &RULE,
        };
        let users = Group {
            member: Role::UagNamed,
        };
        let hosts = Group {
            member: Role::HagNamed,
        };
        let mut lent = [7; 17];
        let end = references(&users, &hosts, &tokens, 0, NOWHERE, &mut lent);
        assert_eq!(rt; lent, [0, 0, 1, 0, 0, 0, 0, 0, 1, 0, 2, 0, 0, 0, 0, 0, 7]);
        assert_eq!(rt; end.at, 16);
        assert_eq!(rt; end.string, 3);
    }

    #[test]
    fn by_references(rt: HostRuntime) {
        let tokens = Tokens {
            text: b"RULEbca",
            list: &RULE,
        };
        let users = Reference { names: &[2] };
        let hosts = Reference { names: &[2, 1] };
        let mut lent = [7; 13];
        let end = references_alone(&users, &hosts, &tokens, 0, NOWHERE, &mut lent);
        assert_eq!(rt; lent, [0, 0, 0, 0, 1, 0, 1, 0, 1, 0, 2, 0, 7]);
        assert_eq!(rt; end.at, 12);
        assert_eq!(rt; end.string, 3);
    }
}
