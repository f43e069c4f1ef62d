// The record or string of the table that is written for one token.
#![tactic(auto)]

ghost use Rattle.std.specs.Prelude.{List, [], map, ◌≡◌, refl, ◌+◌, ◌-◌, ◌<◌, ◌≤◌, ℕ, length};
ghost use Rattle.spec_grammar.specs.Codes.{role_number};
ghost use Rattle.spec_grammar.specs.declared.Role.{Role};
ghost use Rattle.spec_grammar.specs.declared.Role.TheVariants.{Calculation, Pvname};
ghost use Rattle.load_tokens.specs.Views.{roles};
ghost use Rattle.load_spans.specs.Spans.{AmongTokens};
ghost use Rattle.load_spans.specs.Roles.{gap, tally};
ghost use Rattle.byte_write.specs.Put.{cased};
ghost use Rattle.load_records.specs.Cursor.{Bounded, cursor_limit};
ghost use Rattle.load_records.specs.Work.{Work, Groups, Names, Access, Inputs, Rules, References, Texts, Lowered, Firsts};
ghost use Rattle.load_records.specs.Step.{Ready, Step, StringPut};

use load_spans::Tokens;
use spec_grammar::Role;

// The next byte's place, the next string's offset, and the numbers of the next records that a run begins with.
#[derive(Clone, Copy)]
pub struct Cursor {
    pub at: usize,
    pub string: usize,
    pub first: usize,
    pub second: usize,
}

// What is written for each token of a role: a record of a section, or a string.
pub trait Entry {
    ghost work: { Work };

    // The role of what belongs to a token of a role, and the tokens by whose texts references are numbered.
    ghost part: { Self → Role → Role };

    ghost names: { Self → List ℕ };

    // Writes for the i-th token, of that role, in the part that ends at to, and returns the cursor behind. Inner: load_passes::pass calls it,
    // with the tokens of a part and a cursor that it keeps bounded (load_passes/specs/laws/Loops.antt).
    fn put(
        &self,
        tokens: &Tokens,
        i: usize,
        to: usize,
        role: Role,
        p: Cursor,
        lent: &mut [u8],
    ) -> Cursor
        requires ready { Ready tokens.now i to role (part self.now role) p }
        requires listed { AmongTokens (names self.now) (length tokens.now.list.now) }
        ensures { Step work role (part self.now role) (names self.now) tokens.now i to lent.old lent.new p result };
}

// Entries to which no other tokens belong: what belongs to a token of a role has that role itself.
// load_passes::references_alone writes by these.
pub trait Alone: Entry {
    ghost itself: { (e : Self) (role : Role) → Self.part e role ≡ role };
}

// Where what belongs to the i-th token ends: at the next token of one of two roles, or with the part.
fn end_of(tokens: &Tokens, i: usize, to: usize, a: Role, b: Role) -> usize
    requires { (i < to) × (to ≤ length tokens.now.list.now) }
    ensures within { result ≤ to }
    ensures end { result ≡ i + 1 + gap (role_number a) (role_number b) (roles tokens.now.list.now) (i + 1) (to - (i + 1)) }
{
    load_flags::next(tokens, i + 1, to, a, b)
}

// How many of those that belong to it have a role, a number which no cursor is too great to be added to.
fn count(tokens: &Tokens, from: usize, e: usize, role: Role) -> usize
    requires { e ≤ length tokens.now.list.now }
    ensures few { result ≤ 16384 }
    ensures exact { result ≡ tally (role_number role) (roles tokens.now.list.now) from (e - from) }
{
    load_flags::count(tokens, from, e, role)
}

// A group's name and the run of its members, which end where the next group begins.
#[derive(Clone, Copy)]
pub struct Group {
    pub member: Role,
}

impl Entry for Group {
    ghost work = { Groups };

    ghost part = { λ e _. e.member };

    ghost names = { λ _. [] };

    fn put(
        &self,
        tokens: &Tokens,
        i: usize,
        to: usize,
        role: Role,
        p: Cursor,
        lent: &mut [u8],
    ) -> Cursor {
        let len = tokens.long(i);
        let e = end_of(tokens, i, to, role, role);
        let k = count(tokens, i + 1, e, self.member);
        let at = byte_write::put_words(lent, p.at, &[p.string, len, p.first, k]);
        Cursor {
            at,
            string: p.string + len,
            first: p.first + k,
            ..p
        }
    }
}

// A member's name.
#[derive(Clone, Copy)]
pub struct Name;

impl Entry for Name {
    ghost work = { Names };

    ghost part = { λ _ role. role };

    ghost names = { λ _. [] };

    fn put(
        &self,
        tokens: &Tokens,
        i: usize,
        _to: usize,
        _role: Role,
        p: Cursor,
        lent: &mut [u8],
    ) -> Cursor {
        let len = tokens.long(i);
        let at = byte_write::put_words(lent, p.at, &[p.string, len]);
        Cursor {
            at,
            string: p.string + len,
            ..p
        }
    }
}

impl Alone for Name {
    ghost itself = { λ e role. refl };
}

// An access group's name and its runs of inputs and rules.
#[derive(Clone, Copy)]
pub struct AccessGroup;

impl Entry for AccessGroup {
    ghost work = { Access };

    ghost part = { λ _ role. role };

    ghost names = { λ _. [] };

    fn put(
        &self,
        tokens: &Tokens,
        i: usize,
        to: usize,
        role: Role,
        p: Cursor,
        lent: &mut [u8],
    ) -> Cursor {
        let len = tokens.long(i);
        let e = end_of(tokens, i, to, role, role);
        let inputs = count(tokens, i + 1, e, Role::Input);
        let rules = count(tokens, i + 1, e, Role::RuleWord);
        let words = [p.string, len, p.first, inputs, p.second, rules];
        let at = byte_write::put_words(lent, p.at, &words);
        Cursor {
            at,
            string: p.string + len,
            first: p.first + inputs,
            second: p.second + rules,
        }
    }
}

impl Alone for AccessGroup {
    ghost itself = { λ e role. refl };
}

// An input's letter and the name behind it.
#[derive(Clone, Copy)]
pub struct Input;

impl Entry for Input {
    ghost work = { Inputs };

    ghost part = { λ _ _. Pvname };

    ghost names = { λ _. [] };

    fn put(
        &self,
        tokens: &Tokens,
        i: usize,
        to: usize,
        role: Role,
        p: Cursor,
        lent: &mut [u8],
    ) -> Cursor {
        let e = end_of(tokens, i, to, role, Role::AsgName);
        let len = load_flags::first_text(tokens, i + 1, e, Role::Pvname).len();
        let at = byte_write::put_words(lent, p.at, &[tokens.letter(i), p.string, len]);
        Cursor {
            at,
            string: p.string + len,
            ..p
        }
    }
}

// A rule's flags, its runs of references and its calculation.
#[derive(Clone, Copy)]
pub struct Rule;

impl Entry for Rule {
    ghost work = { Rules };

    ghost part = { λ _ _. Calculation };

    ghost names = { λ _. [] };

    fn put(
        &self,
        tokens: &Tokens,
        i: usize,
        to: usize,
        role: Role,
        p: Cursor,
        lent: &mut [u8],
    ) -> Cursor {
        let e = end_of(tokens, i, to, role, Role::AsgName);
        let users = count(tokens, i + 1, e, Role::UagNamed);
        let hosts = count(tokens, i + 1, e, Role::HagNamed);
        let j = load_flags::next(tokens, i + 1, e, Role::Calculation, Role::Calculation);
        let len = load_flags::first_text(tokens, i + 1, e, Role::Calculation).len();
        let flags = load_flags::flags_of(tokens, i + 1, e);
        let behind = p.first + users;
        let calculation = if j < e { p.string } else { 0 };
        let words = [flags, p.first, users, behind, hosts, calculation, len];
        let at = byte_write::put_words(lent, p.at, &words);
        Cursor {
            at,
            string: p.string + len,
            first: behind + hosts,
            ..p
        }
    }
}

// A reference's number, by some names, and its own name.
#[derive(Clone, Copy)]
pub struct Reference<'a> {
    pub names: &'a [u16],
}

impl<'a> Entry for Reference<'a> {
    ghost work = { References };

    ghost part = { λ _ role. role };

    ghost names = { λ e. e.names.now };

    fn put(
        &self,
        tokens: &Tokens,
        i: usize,
        _to: usize,
        _role: Role,
        p: Cursor,
        lent: &mut [u8],
    ) -> Cursor {
        let len = tokens.long(i);
        let number = load_flags::number_of(tokens, self.names, i);
        let at = byte_write::put_words(lent, p.at, &[number, p.string, len]);
        Cursor {
            at,
            string: p.string + len,
            ..p
        }
    }
}

impl<'a> Alone for Reference<'a> {
    ghost itself = { λ e role. refl };
}

// A string, in lower case if asked. Inner: the put of Text, LowerText and FirstText calls it with a token's text, no longer than a file, at
// the cursor that Entry's put has bounded.
pub fn put_string(t: &[u8], low: bool, p: Cursor, lent: &mut [u8]) -> Cursor
    requires { Bounded cursor_limit p × (length t.now < cursor_limit) }
    ensures { StringPut (map (cased low) t.now) lent.old lent.new p result }
{
    let at = byte_write::put_text(lent, p.at, t, low);
    Cursor { at, ..p }
}

// The token's text.
#[derive(Clone, Copy)]
pub struct Text;

impl Entry for Text {
    ghost work = { Texts };

    ghost part = { λ _ role. role };

    ghost names = { λ _. [] };

    fn put(
        &self,
        tokens: &Tokens,
        i: usize,
        _to: usize,
        _role: Role,
        p: Cursor,
        lent: &mut [u8],
    ) -> Cursor {
        put_string(tokens.text_of(i), false, p, lent)
    }
}

impl Alone for Text {
    ghost itself = { λ e role. refl };
}

// Its text in lower case.
#[derive(Clone, Copy)]
pub struct LowerText;

impl Entry for LowerText {
    ghost work = { Lowered };

    ghost part = { λ _ role. role };

    ghost names = { λ _. [] };

    fn put(
        &self,
        tokens: &Tokens,
        i: usize,
        _to: usize,
        _role: Role,
        p: Cursor,
        lent: &mut [u8],
    ) -> Cursor {
        put_string(tokens.text_of(i), true, p, lent)
    }
}

impl Alone for LowerText {
    ghost itself = { λ e role. refl };
}

// The first text of a role that belongs to the token.
#[derive(Clone, Copy)]
pub struct FirstText {
    pub of: Role,
}

impl Entry for FirstText {
    ghost work = { Firsts };

    ghost part = { λ e _. e.of };

    ghost names = { λ _. [] };

    fn put(
        &self,
        tokens: &Tokens,
        i: usize,
        to: usize,
        role: Role,
        p: Cursor,
        lent: &mut [u8],
    ) -> Cursor {
        let e = end_of(tokens, i, to, role, Role::AsgName);
        let text = load_flags::first_text(tokens, i + 1, e, self.of);
        put_string(text, false, p, lent)
    }
}
