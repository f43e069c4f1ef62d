// What a register's calls answer, and the rights of its places, as its vectors write them.
#![tactic(auto)]

use load_number::refusal_number;
use prog_output::{put, put_number, put_pair};
use spec_register::{Added, Changed, Refused, Reloaded};
use spec_rule::Access;
use std::io::{Eprint, Print};

fn letter(a: Access) -> u8 {
    match a {
        Access::None => b'N',
        Access::Read => b'R',
        Access::Write => b'W',
    }
}

fn put_right(rt: &(impl Print + Eprint), places: &[u8], p: usize) {
    let right = place::right(places, p);
    let trap = if right.trap { b't' } else { b'-' };
    put(rt, &[b' ', letter(right.access), trap]);
}

// The rights of all places.
pub fn put_rights(rt: &(impl Print + Eprint), places: &[u8]) {
    put(rt, b" |");
    for p in 0..64 {
        put_right(rt, places, p);
    }
    put(rt, b"\n");
}

// A refusal's number. 02, ticket 1.
fn refused_number(x: Refused) -> usize {
    match x {
        Refused::NotTable => 20,
        Refused::BadLevel => 21,
        Refused::NoInput => 22,
        Refused::LongName => 23,
        Refused::NoPlace => 24,
        Refused::NoClient => 25,
        Refused::NotRegister => 34,
    }
}

fn put_refused(rt: &(impl Print + Eprint), x: Refused) {
    put(rt, b"refused ");
    put_number(rt, refused_number(x));
}

pub fn put_added(rt: &(impl Print + Eprint), a: Added) {
    match a {
        Added::At { place, changed } => {
            put(rt, b"ok ");
            put_number(rt, place);
        }
        Added::Refused(x) => put_refused(rt, x),
    }
}

pub fn put_changed(rt: &(impl Print + Eprint), c: Changed) {
    match c {
        Changed::Places(changed) => {
            put(rt, b"ok");
        }
        Changed::Refused(x) => put_refused(rt, x),
    }
}

pub fn put_reloaded(rt: &(impl Print + Eprint), l: Reloaded) {
    match l {
        Reloaded::Accepted {
            length,
            warnings,
            changed,
        } => put_pair(rt, b"ok ", length, warnings),
        Reloaded::Refused { refusal, place } => {
            put_pair(rt, b"refused ", usize::from(refusal_number(refusal)), place)
        }
        Reloaded::NotRegister => put_refused(rt, Refused::NotRegister),
    }
}
