// What a line of the asker's input asks. 01, "Two programs".
#![tactic(auto)]

ghost use Rattle.std.specs.Prelude.{◌≡◌};
ghost use Rattle.prog_line.specs.Line.{group_of, asks};
ghost use Rattle.prog_question.specs.Asked.{asked};

use prog_line::{level_of, next_part, readings};
use spec_calc::Reading;

// The most bytes of a line.
const LONGEST: usize = 255;

// A question, without roles.
#[derive(Clone, Copy)]
pub struct Question<'a> {
    pub group: &'a [u8],
    pub user: &'a [u8],
    pub host: &'a [u8],
    pub level: u32,
    pub readings: [Reading; 21],
}

// `-` is the empty group.
fn group_of(part: &[u8]) -> &[u8]
    ensures { result.now ≡ group_of part.now }
{
    if byte_compare::equal(part, b"-") {
        return &part[..0];
    }
    part
}

// None where a line is refused.
pub fn read_question(line: &[u8]) -> Option<Question<'_>>
    ensures { asks line.now ≡ asked result }
{
    if LONGEST < line.len() {
        return None;
    }
    let (group, rest) = next_part(line)?;
    let (user, rest) = next_part(rest)?;
    let (host, rest) = next_part(rest)?;
    let (level, rest) = level_of(rest)?;
    let readings = readings(rest)?;
    Some(Question {
        group: group_of(group),
        user,
        host,
        level,
        readings,
    })
}
