// The answers to a question, to a look-up and of an export as numbers, for callers in C: include/hrazvanut.h takes them apart again.
#![tactic(auto)]

ghost use Rattle.std.specs.Prelude.{◌≡◌};
ghost use Rattle.api_numbers.specs.Numbers.{answer_number, found_number, exported_number};

use api_numbers::{BAD_LEVEL, NO_INPUT, NOT_TABLE, packed, refused};
use spec_decision::{Answer, Found};
use spec_export::Exported;

const BAD_ROLES: u8 = 26;

const UNWRITABLE: u8 = 27;

const NO_ROOM: u8 = 28;

pub fn answer_number(a: Answer) -> u64
    ensures { result ≡ answer_number a }
{
    match a {
        Answer::Answered(d) => packed(usize::from(ask_number::number(d)), 0, 0),
        Answer::NotTable => refused(NOT_TABLE),
        Answer::BadLevel => refused(BAD_LEVEL),
        Answer::BadRoles => refused(BAD_ROLES),
    }
}

pub fn found_number(f: Found) -> u64
    ensures { result ≡ found_number f }
{
    match f {
        Found::Part { at, length } => packed(at, length, 0),
        Found::NotTable => refused(NOT_TABLE),
        Found::NoInput => refused(NO_INPUT),
    }
}

pub fn exported_number(e: Exported) -> u64
    ensures { result ≡ exported_number e }
{
    match e {
        Exported::Written(n) => packed(n, 0, 0),
        Exported::NotTable => refused(NOT_TABLE),
        Exported::Unwritable => refused(UNWRITABLE),
        Exported::NoRoom(n) => packed(n, 0, NO_ROOM),
    }
}
