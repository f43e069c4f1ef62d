// The table of a judged text in the lent bytes, and how many warnings it has.
#![tactic(auto)]

ghost use Rattle.std.specs.Prelude.{◌≤◌, length};
ghost use Rattle.load_tokens.specs.Views.{roles};
ghost use Rattle.load_spans.specs.Roles.{tally};
ghost use Rattle.load_store.specs.Stored.{Fits, Stored};

use load_passes::Source;
use load_spans::Tokens;
use spec_file::Refusal;
use spec_grammar::Role;
use spec_load::Loaded;

// The table of an accepted file, if there is room, and how many warnings it has. The caller, load, has the tokens from load_judge, which
// finds few groups in a file that it accepts, and no accepted file has a longer table than Fits says.
pub fn store(tokens: &Tokens, lent: &mut [u8]) -> Loaded
    requires few_users { tally 1 (roles tokens.now.list.now) 0 (length tokens.now.list.now) ≤ 64 }
    requires few_hosts { tally 3 (roles tokens.now.list.now) 0 (length tokens.now.list.now) ≤ 64 }
    requires fits { Fits tokens.now }
    ensures { Stored tokens.now lent.old lent.new result }
{
    let mut uags = [0u16; 64];
    let mut hags = [0u16; 64];
    let u = tokens.collect(Role::UagName, &mut uags);
    let h = tokens.collect(Role::HagName, &mut hags);
    let source = Source {
        tokens: *tokens,
        uags: &uags[..u],
        hags: &hags[..h],
    };
    match load_room::write(&source, lent) {
        Err(place) => Loaded::Refused {
            refusal: Refusal::NoRoom,
            place,
        },
        Ok(length) => Loaded::Accepted {
            length,
            warnings: load_warnings::count(tokens.list),
        },
    }
}
