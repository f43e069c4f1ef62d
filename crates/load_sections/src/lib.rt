// The sections of the table, and its strings.
#![tactic(auto)]

ghost use Rattle.std.specs.Prelude.{◌≡◌, ◌+◌, ◌-◌, length};
ghost use Rattle.spec_grammar.specs.Codes.{role_number};
ghost use Rattle.load_tokens.specs.Views.{roles};
ghost use Rattle.load_spans.specs.Roles.{gap};
ghost use Rattle.byte_write.specs.Put.{Put};
ghost use Rattle.load_records.specs.Cursor.{cursor, Bounded};
ghost use Rattle.load_passes.specs.Source.{all_of};
ghost use Rattle.load_sections.specs.Sections.{limit_3, limit_5, limit_7, limit_strings, GroupsWritten, AccessWritten, RulesPut};
ghost use Rattle.load_sections.specs.Strings.{access_strings, NamesWritten};

use load_passes::{Source, pass, references_alone};
use load_records::{
    AccessGroup, Cursor, FirstText, Group, Input, LowerText, Name, Reference, Rule, Text,
};
use load_spans::Tokens;
use spec_grammar::Role;

// The first token of a role, or the end.
fn first(tokens: &Tokens, role: Role) -> usize
    ensures { result ≡ 0 + gap (role_number role) (role_number role) (roles tokens.now.list.now) 0 (length tokens.now.list.now - 0) }
{
    load_flags::next(tokens, 0, tokens.list.len(), role, role)
}

// Where sections 2 and 3 begin, and the cursor behind section 3.
#[derive(Clone, Copy)]
pub struct GroupSections {
    pub two: usize,
    pub three: usize,
    pub cursor: Cursor,
}

// The caller of each function, load_write::table, has the tokens of a file, and hands on the cursor that the function before left.

// Sections 1 to 3: user groups, host groups, and the members of both. Inner: load_write::table calls it, first of all.
pub fn group_sections(tokens: &Tokens, lent: &mut [u8]) -> GroupSections
    ensures { GroupsWritten (all_of tokens.now) lent.old lent.new (cursor 36 0 0 0) result }
{
    let n = tokens.list.len();
    let a = first(tokens, Role::UagName);
    let b = first(tokens, Role::HagName);
    let p = Cursor {
        at: 36,
        string: 0,
        first: 0,
        second: 0,
    };
    let users = Group { member: Role::User };
    let hosts = Group { member: Role::Host };
    let one = pass(&users, tokens, 0, n, Role::UagName, p, lent);
    let two = pass(&hosts, tokens, 0, n, Role::HagName, one, lent);
    let named = pass(&Name, tokens, a, n, Role::User, two, lent);
    let cursor = pass(&Name, tokens, b, n, Role::Host, named, lent);
    GroupSections {
        two: one.at,
        three: two.at,
        cursor,
    }
}

// Where section 5 begins, and the cursor behind it.
#[derive(Clone, Copy)]
pub struct AccessSections {
    pub five: usize,
    pub cursor: Cursor,
}

// Sections 4 and 5: access groups and inputs. Inner: load_write::table calls it with the cursor of group_sections, which promises this
// bound.
pub fn access_sections(tokens: &Tokens, p: Cursor, lent: &mut [u8]) -> AccessSections
    requires { Bounded limit_3 p }
    ensures { AccessWritten (all_of tokens.now) lent.old lent.new p result }
{
    let n = tokens.list.len();
    let a = first(tokens, Role::AsgName);
    let start = Cursor {
        first: 0,
        second: 0,
        ..p
    };
    let four = pass(&AccessGroup, tokens, 0, n, Role::AsgName, start, lent);
    let cursor = pass(&Input, tokens, a, n, Role::Input, four, lent);
    AccessSections {
        five: four.at,
        cursor,
    }
}

// Where section 7 begins, how many references there are, and the cursor behind them.
#[derive(Clone, Copy)]
pub struct RuleSections {
    pub seven: usize,
    pub references: usize,
    pub cursor: Cursor,
}

// Sections 6 and 7: rules and references. A reference's name stands before the rules' calculations, so rules are written last.
// Inner: load_write::table calls it with the cursor of access_sections, which promises this bound.
pub fn rule_sections(source: &Source, p: Cursor, lent: &mut [u8]) -> RuleSections
    requires { Bounded limit_5 p }
    ensures { RulesPut source.now lent.old lent.new p result }
{
    let tokens = source.tokens;
    let n = tokens.list.len();
    let a = first(&tokens, Role::AsgName);
    let seven = p.at + 14 * load_flags::count(&tokens, a, n, Role::RuleWord);
    let behind = Cursor {
        at: seven,
        first: 0,
        second: 0,
        ..p
    };
    let users = Reference { names: source.uags };
    let hosts = Reference { names: source.hags };
    let cursor = references_alone(&users, &hosts, &tokens, a, behind, lent);
    let before = Cursor {
        string: cursor.string,
        first: 0,
        second: 0,
        ..p
    };
    let six = pass(&Rule, &tokens, a, n, Role::RuleWord, before, lent);
    RuleSections {
        seven,
        references: six.first,
        cursor,
    }
}

// The names of groups and members. Inner: load_write::table calls it with the cursor of rule_sections, which promises this bound.
pub fn group_strings(tokens: &Tokens, p: Cursor, lent: &mut [u8]) -> Cursor
    requires { Bounded limit_7 p }
    ensures { NamesWritten (all_of tokens.now) lent.old lent.new p result }
{
    let n = tokens.list.len();
    let a = first(tokens, Role::UagName);
    let b = first(tokens, Role::HagName);
    let one = pass(&Text, tokens, 0, n, Role::UagName, p, lent);
    let two = pass(&Text, tokens, 0, n, Role::HagName, one, lent);
    let users = pass(&Text, tokens, a, n, Role::User, two, lent);
    pass(&LowerText, tokens, b, n, Role::Host, users, lent)
}

// The names of access groups, inputs and references, and the calculations. Inner: load_write::table calls it with the cursor of
// group_strings, which promises this bound.
pub fn access_strings(tokens: &Tokens, p: Cursor, lent: &mut [u8]) -> usize
    requires { Bounded limit_strings p }
    ensures { Put lent.old lent.new p.at (access_strings (all_of tokens.now)) result }
{
    let n = tokens.list.len();
    let a = first(tokens, Role::AsgName);
    let name = FirstText { of: Role::Pvname };
    let calculation = FirstText {
        of: Role::Calculation,
    };
    let four = pass(&Text, tokens, 0, n, Role::AsgName, p, lent);
    let five = pass(&name, tokens, a, n, Role::Input, four, lent);
    let seven = references_alone(&Text, &Text, tokens, a, five, lent);
    let end = pass(&calculation, tokens, a, n, Role::RuleWord, seven, lent);
    end.at
}
