// The braces rule: how many braces are open at once.
#![tactic(auto)]

ghost use Rattle.std.specs.Prelude.{◌≡◌, List, ℕ, ◌≤◌};
ghost use Rattle.spec_file.specs.Depth.{opened};
ghost use Rattle.spec_file.specs.Limit.{most_braces};
ghost use Rattle.load_depth.specs.Deep.{Finds};

use load_tokens::Token;
use spec_token::Kind;

// most_braces
const MOST_BRACES: usize = 16;

// How many braces are open behind a token. The caller, too_deep, goes on only while no more are open than may be.
fn opened(kind: Kind, count: usize) -> usize
    requires { count ≤ most_braces }
    ensures { result ≡ opened kind count }
{
    match kind {
        Kind::OpenBrace => count + 1,
        Kind::CloseBrace => count.saturating_sub(1),
        _ => count,
    }
}

// The braces rule: the place of the brace that makes too many open at once.
pub fn too_deep(tokens: &[Token]) -> Option<usize>
    ensures { (s : List ℕ) → Finds s tokens.now result }
{
    let mut count = 0;
    for token in tokens {
        count = opened(token.kind, count);
        if count > MOST_BRACES {
            return Some(token.place());
        }
    }
    None
}
