// The answers of a load as numbers, for callers in C: include/hrazvanut.h takes them apart again.
#![tactic(auto)]

ghost use Rattle.std.specs.Prelude.{◌≡◌};
ghost use Rattle.spec_file.specs.Refusal as refusal;
ghost use Rattle.api_numbers.specs.Numbers.{packed, load_number, listed_number};

use load_number::refusal_number;
use spec_file::Refusal;
use spec_load::{Listed, Loaded};

// The numbers of refusals that calls on a table and on a register share.
pub const NOT_TABLE: u8 = 20;

pub const BAD_LEVEL: u8 = 21;

pub const NO_INPUT: u8 = 22;

// 32 bits, 16 bits, and a refusal's number.
pub fn packed(first: usize, second: usize, number: u8) -> u64
    ensures { result ≡ packed first second number }
{
    let first = first.min(4294967295) as u64;
    let second = second.min(65535) as u64;
    first + second * 4294967296 + u64::from(number) * 281474976710656
}

// A refusal that tells nothing but its number.
pub fn refused(number: u8) -> u64
    ensures { result ≡ packed 0 0 number }
{
    packed(0, 0, number)
}

// A load's refusal with its place.
pub fn refused_load(k: Refusal, place: usize) -> u64
    ensures { result ≡ packed place 0 (refusal.number k) }
{
    packed(place, 0, refusal_number(k))
}

pub fn load_number(l: Loaded) -> u64
    ensures { result ≡ load_number l }
{
    match l {
        Loaded::Accepted { length, warnings } => packed(length, warnings, 0),
        Loaded::Refused { refusal, place } => refused_load(refusal, place),
    }
}

pub fn listed_number(l: Listed) -> u64
    ensures { result ≡ listed_number l }
{
    match l {
        Listed::Warnings(n) => packed(n, 0, 0),
        Listed::Refused { refusal, place } => refused_load(refusal, place),
    }
}
