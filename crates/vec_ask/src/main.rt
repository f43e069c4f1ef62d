// Answers for each name in the file index the lines of NAME.ask by the rules in NAME.acf, as the asker does, in short pieces.
#![tactic(auto)]

use prog_output::put;
use std::fs;
use std::io::{Eprint, Print};
use std::rt::Files;
use vec_words::{for_each_line, path};

// Short and odd, so that lines are cut at many places.
const PIECE: usize = 61;

// Answers the questions of a file by the rules of a text.
fn answer(rt: &(impl Files + Print + Eprint), rules: &[u8], path: &[u8]) {
    let mut table = [0u8; 35108];
    let name = match std::str::from_utf8(path) {
        Ok(name) => name,
        Err(e) => {
            let _ = eprintln!(rt; "the path of a file: {e}");
            return;
        }
    };
    match fs::open(rt, name) {
        Ok(mut file) => prog_ask::answer(rt, rules, &mut table, &mut file, PIECE),
        Err(e) => {
            let _ = eprintln!(rt; "{name}: {e}");
        }
    }
}

// A line of the index: the four bytes of a name. A missing file of rules is an empty one, as it is to the asker.
fn judge(rt: &(impl Files + Print + Eprint), line: &[u8]) {
    let Some(name) = line.first_chunk::<4>() else {
        return;
    };
    put(rt, name);
    put(rt, b"\n");
    let mut text = [0u8; 16385];
    let n = prog_input::read_or_empty(rt, &path(*name, *b".acf"), &mut text);
    answer(rt, &text[..n], &path(*name, *b".ask"));
}

fn main(rt: HostRuntime) {
    let mut buf = io::buffer();
    let n = prog_input::read(&rt, b"index", &mut buf);
    for_each_line(&buf[..n], |line| judge(&rt, line));
}
