// What the register's calls answer, as a number and a lent word, for callers in C.
#![tactic(auto)]

ghost use Rattle.std.specs.Prelude.{◌≡◌, set};
ghost use Rattle.spec_register.specs.Refusal as refusals;
ghost use Rattle.api_register.specs.Numbers.{TellsAdded, TellsChanged, TellsReloaded};

use api_numbers::{BAD_LEVEL, NO_INPUT, NOT_TABLE, packed, refused};
use spec_register::{Added, Changed, Refused, Reloaded};

const LONG_NAME: u8 = 23;

const NO_PLACE: u8 = 24;

const NO_CLIENT: u8 = 25;

const NOT_REGISTER: u8 = 34;

fn number(x: Refused) -> u8
    ensures { result ≡ refusals.number x }
{
    match x {
        Refused::NotRegister => NOT_REGISTER,
        Refused::NotTable => NOT_TABLE,
        Refused::BadLevel => BAD_LEVEL,
        Refused::NoInput => NO_INPUT,
        Refused::LongName => LONG_NAME,
        Refused::NoPlace => NO_PLACE,
        Refused::NoClient => NO_CLIENT,
    }
}

// Writes the changed places into the lent word, if there is one.
fn put_places(word: &mut [u64], places: u64)
    ensures { word.new ≡ set word.old 0 places }
{
    if let Some(first) = word.first_mut() {
        *first = places;
    }
}

pub fn tell_added(a: Added, word: &mut [u64]) -> u64
    ensures { TellsAdded a word.old word.new result }
{
    match a {
        Added::At { place, changed } => {
            put_places(word, changed);
            packed(place, 0, 0)
        }
        Added::Refused(x) => refused(number(x)),
    }
}

pub fn tell_changed(c: Changed, word: &mut [u64]) -> u64
    ensures { TellsChanged c word.old word.new result }
{
    match c {
        Changed::Places(changed) => {
            put_places(word, changed);
            packed(0, 0, 0)
        }
        Changed::Refused(x) => refused(number(x)),
    }
}

pub fn tell_reloaded(l: Reloaded, word: &mut [u64]) -> u64
    ensures { TellsReloaded l word.old word.new result }
{
    match l {
        Reloaded::Accepted {
            length,
            warnings,
            changed,
        } => {
            put_places(word, changed);
            packed(length, warnings, 0)
        }
        Reloaded::Refused { refusal, place } => api_numbers::refused_load(refusal, place),
        Reloaded::NotRegister => refused(NOT_REGISTER),
    }
}
