// The warnings of a text, listed.
#![tactic(auto)]

ghost use Rattle.std.specs.Prelude.{◌≡◌, ◌≤◌, length};
ghost use Rattle.spec_load.specs.Listing.{listing};

use load_judge::{BLANK, LONGEST, SHORT};
use spec_file::Refusal;
use spec_load::Listed;

// The warnings of a text of at most N bytes.
fn list_by<const N: usize>(text: &[u8], skip: usize, numbers: &mut [u8], at: &mut [u16]) -> Listed
    requires { (length text.now ≤ N) × (N ≤ 16384) }
    ensures { record { answer = result; numbers = numbers.new; places = at.new }
        ≡ listing skip numbers.old at.old text.now }
{
    let mut tokens = [BLANK; N];
    match load_judge::judge(text, &mut tokens) {
        Err((refusal, place)) => Listed::Refused { refusal, place },
        Ok(n) => {
            let count = load_warnings::warnings(&tokens[..n], skip, numbers, at);
            Listed::Warnings(count)
        }
    }
}

// How many warnings a text has. The numbers and places of those from the skip-th on are written, as many as there is room for.
pub fn list_warnings(text: &[u8], skip: usize, numbers: &mut [u8], at: &mut [u16]) -> Listed
    ensures { record { answer = result; numbers = numbers.new; places = at.new }
        ≡ listing skip numbers.old at.old text.now }
{
    if text.len() <= SHORT {
        return list_by::<SHORT>(text, skip, numbers, at);
    }
    if text.len() <= LONGEST {
        return list_by::<LONGEST>(text, skip, numbers, at);
    }
    Listed::Refused {
        refusal: Refusal::FileTooLong,
        place: 0,
    }
}
