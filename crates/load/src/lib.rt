// The load: from a text to a table in lent bytes, or a refusal that leaves them as they are.
#![tactic(auto)]

ghost use Rattle.std.specs.Prelude.{◌≡◌, ◌≤◌, length};
ghost use Rattle.spec_load.specs.Load.{load};

use load_judge::{BLANK, LONGEST, SHORT};
use load_spans::Tokens;
use spec_file::Refusal;
use spec_load::Loaded;

// The load of a text of at most N bytes.
fn load_by<const N: usize>(text: &[u8], lent: &mut [u8]) -> Loaded
    requires { (length text.now ≤ N) × (N ≤ 16384) }
    ensures { record { answer = result; bytes = lent.new } ≡ load lent.old text.now }
{
    let mut tokens = [BLANK; N];
    match load_judge::judge(text, &mut tokens) {
        Err((refusal, place)) => Loaded::Refused { refusal, place },
        Ok(n) => {
            let accepted = Tokens {
                text,
                list: &tokens[..n],
            };
            load_store::store(&accepted, lent)
        }
    }
}

// The table of a text at the start of the lent bytes, or a refusal, which leaves them as they are.
pub fn load(text: &[u8], lent: &mut [u8]) -> Loaded
    ensures { record { answer = result; bytes = lent.new } ≡ load lent.old text.now }
{
    let long = text.len();
    if long <= SHORT {
        return load_by::<SHORT>(text, lent);
    }
    if long <= LONGEST {
        return load_by::<LONGEST>(text, lent);
    }
    Loaded::Refused {
        refusal: Refusal::FileTooLong,
        place: 0,
    }
}
