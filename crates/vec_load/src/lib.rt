// A file checked and loaded, for the vectors: the checker's lines, a load's answer in words, and what the load left in the lent bytes.
#![tactic(auto)]

use load_number::refusal_number;
use prog_output::{put, put_pair};
use spec_load::Loaded;
use std::io::{Eprint, Print};
use std::rt::Files;

// What lent bytes hold before a call.
pub const BEFORE: u8 = 0xA5;

// What a load answers, in a line.
fn put_answer(rt: &(impl Print + Eprint), a: Loaded) {
    match a {
        Loaded::Accepted { length, warnings } => put_pair(rt, b"accepted ", length, warnings),
        Loaded::Refused { refusal, place } => {
            put_pair(rt, b"refused ", usize::from(refusal_number(refusal)), place)
        }
    }
    put(rt, b"\n");
}

// Whether a call left all but the first bytes as they were.
pub fn put_rest(rt: &(impl Print + Eprint), lent: &[u8], written: usize) {
    if lent.iter().skip(written).all(|b| *b == BEFORE) {
        put(rt, b"rest untouched\n");
    } else {
        put(rt, b"rest written\n");
    }
}

// Whether some bytes are those of a file, where one is named: the line for yes, or the line for no.
pub fn put_same(
    rt: &(impl Files + Print + Eprint),
    bytes: &[u8],
    path: &[u8],
    same: &[u8],
    differs: &[u8],
) {
    if path.is_empty() {
        return;
    }
    let mut buf = io::large_buffer();
    let n = prog_input::read(rt, path, &mut buf);
    if bytes == &buf[..n] {
        put(rt, same);
    } else {
        put(rt, differs);
    }
}

// What the checker prints for a text.
fn check(rt: &(impl Print + Eprint), text: &[u8]) {
    let mut out = [0u8; prog_check::MOST_PRINTED];
    let n = prog_check::check(text, &mut out);
    put(rt, &out[..n]);
}

// Loads a text into the first bytes of those that are lent.
fn load(
    rt: &(impl Files + Print + Eprint),
    text: &[u8],
    lent: &mut [u8],
    room: usize,
    path: &[u8],
) {
    let room = room.min(lent.len());
    let answer = load::load(text, &mut lent[..room]);
    put_answer(rt, answer);
    let mut written = 0;
    if let Loaded::Accepted { length, warnings } = answer {
        written = length.min(room);
        put_same(
            rt,
            &lent[..written],
            path,
            b"table same\n",
            b"table differs\n",
        );
    }
    put_rest(rt, lent, written);
}

// Checks a file and loads it into so many of 35,108 lent bytes. Its table is compared with that in a file, if one is named.
pub fn check_and_load(rt: &(impl Files + Print + Eprint), path: &[u8], room: usize, table: &[u8]) {
    let mut text = [0u8; 16385];
    let n = prog_input::read(rt, path, &mut text);
    check(rt, &text[..n]);
    let mut lent = [BEFORE; 35108];
    load(rt, &text[..n], &mut lent, room, table);
}
