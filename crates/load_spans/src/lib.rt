// The texts of tokens in the file, and the tokens of a role.
#![tactic(auto)]

ghost use Rattle.std.specs.Prelude.{◌≡◌, map, ℕ, ◌≤◌, ◌<◌, length, get_or, set, position, MatchOption, true, false};
ghost use Rattle.spec_lists.specs.Text.{same};
ghost use Rattle.spec_grammar.specs.Codes.{role_number};
ghost use Rattle.spec_token.specs.Word.{link_letter};
ghost use Rattle.load_tokens.specs.Views.{starts, ends, roles};
ghost use Rattle.load_spans.specs.Spans.{AmongTokens, text_of};
ghost use Rattle.load_spans.specs.Search.{earlier_of, Found};
ghost use Rattle.load_spans.specs.Listed.{Listed};

use load_tokens::Token;
use spec_grammar::Role;

// The text of a file and its tokens, which lie in it.
#[derive(Clone, Copy)]
pub struct Tokens<'a> {
    pub text: &'a [u8],
    pub list: &'a [Token],
    pub ghost short: { length text.now ≤ 16384 },
    pub ghost few: { length list.now ≤ 16384 },
    pub ghost in_order: { (i : ℕ) → i < length list.now → get_or (starts list.now) i 0 ≤ get_or (ends list.now) i 0 },
    pub ghost inside: { (i : ℕ) → i < length list.now → get_or (ends list.now) i 0 ≤ length text.now },
}

impl<'a> Tokens<'a> {
    // The text of the i-th. Callers, as of all here that take an index, go through the tokens or have the index from collect.
    pub fn text_of(&self, i: usize) -> &'a [u8]
        requires { i < length self.now.list.now }
        ensures { result.now ≡ text_of self.now.text.now self.now.list.now i }
    {
        self.list[i].text(self.text)
    }

    // How long it is.
    pub fn long(&self, i: usize) -> usize
        requires { i < length self.now.list.now }
        ensures { result ≡ length (text_of self.now.text.now self.now.list.now i) }
    {
        self.text_of(i).len()
    }

    // The letter of an INP word, A being 0.
    pub fn letter(&self, i: usize) -> usize
        requires { i < length self.now.list.now }
        ensures { result ≡ link_letter (text_of self.now.text.now self.now.list.now i) }
    {
        match self.text_of(i).get(3) {
            Some(b) => usize::from(b.saturating_sub(b'A')),
            None => 0,
        }
    }

    // Where the first of some tokens stands that has a token's text. Callers have these tokens from collect.
    pub fn position(&self, names: &[u16], i: usize) -> Option<usize>
        requires { (i < length self.now.list.now) × AmongTokens names.now (length self.now.list.now) }
        ensures { result ≡ position (λ name. same (text_of self.now.text.now self.now.list.now name) (text_of self.now.text.now self.now.list.now i)) names.now }
    {
        let text = self.text_of(i);
        names.iter().position(|name| byte_compare::equal(self.text_of(usize::from(*name)), text))
    }

    // The tokens of a role, as many as there is room for, and how many they are.
    pub fn collect(&self, role: Role, names: &mut [u16]) -> usize
        ensures { Listed names.old names.new (role_number role) (roles self.now.list.now) (length self.now.list.now) result }
    {
        let mut k = 0;
        for (i, token) in self.list.iter().enumerate() {
            if token.role == role {
                keep(names, k, i);
                k += 1;
            }
        }
        k
    }

    // The first token to which a test applies. Callers have a test that may be made of each token.
    pub fn first<F: Fn(usize) -> bool>(&self, applies: F) -> Option<usize>
        requires { (i : ℕ) → i < length self.now.list.now → F.pre applies i }
        ensures { Found (F.post applies) (length self.now.list.now) result }
    {
        for i in 0..self.list.len() {
            if applies(i) {
                return Some(i);
            }
        }
        None
    }
}

// A token behind the others, if there is room.
fn keep(names: &mut [u16], k: usize, i: usize)
    requires { i < 65536 }
    ensures { names.new ≡ set names.old k i }
{
    if k < names.len() {
        names[k] = i as u16;
    }
}

// The earlier of two tokens, either of which may be missing.
pub fn earlier(a: Option<usize>, b: Option<usize>) -> Option<usize>
    ensures { result ≡ earlier_of a b }
{
    match (a, b) {
        (Some(i), Some(j)) => Some(i.min(j)),
        _ => a.or(b),
    }
}
