// Writes the table that each line of the file index names back as text: what the export answers, and what it leaves in the lent bytes.
#![tactic(auto)]

use prog_output::{put, put_number};
use spec_export::Exported;
use std::io::{Eprint, Print};
use std::rt::Files;
use vec_load::{put_rest, put_same};
use vec_words::{for_each_line, word};

// No line lends more.
const MOST: usize = 65535;

// What an export answers, in a line; with 28 the bytes needed.
fn put_answer(rt: &(impl Print + Eprint), e: Exported) {
    match e {
        Exported::Written(n) => {
            put(rt, b"ok ");
            put_number(rt, n);
        }
        Exported::NotTable => {
            put(rt, b"refused 20 0");
        }
        Exported::Unwritable => {
            put(rt, b"refused 27 0");
        }
        Exported::NoRoom(n) => {
            put(rt, b"refused 28 ");
            put_number(rt, n);
        }
    }
    put(rt, b"\n");
}

// Exports the bytes of a file into so many lent bytes. The text is compared with that in a file, if one is named.
fn read_and_export(rt: &(impl Files + Print + Eprint), path: &[u8], room: usize, expected: &[u8]) {
    let mut buf = io::large_buffer();
    let n = prog_input::read(rt, path, &mut buf);
    let mut lent = [vec_load::BEFORE; MOST];
    let room = room.min(MOST);
    let answer = text::export(&buf[..n], &mut lent[..room]);
    put_answer(rt, answer);
    let written = match answer {
        Exported::Written(n) => n.min(MOST),
        _ => 0,
    };
    put_same(
        rt,
        &lent[..written],
        expected,
        b"text same\n",
        b"text differs\n",
    );
    put_rest(rt, &lent, written);
}

// A line of the index: a file, how many bytes are lent, and the file of its text where there is one.
fn judge(rt: &(impl Files + Print + Eprint), line: &[u8]) {
    put(rt, line);
    put(rt, b"\n");
    let room = vec_words::number(word(line, 1)) as usize;
    read_and_export(rt, word(line, 0), room, word(line, 2));
}

fn main(rt: HostRuntime) {
    let mut buf = io::large_buffer();
    let n = prog_input::read(&rt, b"index", &mut buf);
    for_each_line(&buf[..n], |line| judge(&rt, line));
}
