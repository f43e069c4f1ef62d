// A register, and the calls of its script that load nothing, made, and their answers printed.
#![tactic(auto)]

use std::io::{Eprint, Print};
use vec_answers::{put_added, put_changed};
use vec_calls::{Call, MOST_TEXT};
use vec_words::{decode, number, word};

// A register over a buffer for its table.
#[derive(Drop)]
pub struct Register {
    pub places: [u8; 28672],
    pub states: [u8; 1344],
    pub values: [f64; 1344],
    pub table: [u8; 35108],
}

// A text in lent bytes, as far as there is room. What is handed on is a slice: a value as large as the room would be copied.
fn text<'a>(s: &[u8], room: &'a mut [u8]) -> &'a [u8] {
    let n = decode(s, room);
    &room[..n]
}

// What a line says of a client, its texts in lent bytes.
#[derive(Clone, Copy)]
struct Client<'a> {
    group: &'a [u8],
    level: u32,
    user: &'a [u8],
    host: &'a [u8],
}

impl<'a> Client<'a> {
    fn read(
        group: &[u8],
        level: &[u8],
        user: &[u8],
        host: &[u8],
        group_room: &'a mut [u8],
        user_room: &'a mut [u8],
        host_room: &'a mut [u8],
    ) -> Client<'a> {
        Client {
            group: text(group, group_room),
            level: number(level),
            user: text(user, user_room),
            host: text(host, host_room),
        }
    }
}

fn add(rt: &(impl Print + Eprint), r: &mut Register, line: &[u8]) {
    let mut group_room = [0; MOST_TEXT];
    let mut user_room = [0; MOST_TEXT];
    let mut host_room = [0; MOST_TEXT];
    let c = Client::read(
        word(line, 1),
        word(line, 2),
        word(line, 3),
        word(line, 4),
        &mut group_room,
        &mut user_room,
        &mut host_room,
    );
    put_added(
        rt,
        register::add(
            &mut r.places,
            &r.states,
            &r.values,
            &r.table,
            c.group,
            c.user,
            c.host,
            c.level,
        ),
    );
}

fn change(rt: &(impl Print + Eprint), r: &mut Register, line: &[u8]) {
    let place = number(word(line, 1)) as usize;
    let mut group_room = [0; MOST_TEXT];
    let mut user_room = [0; MOST_TEXT];
    let mut host_room = [0; MOST_TEXT];
    let c = Client::read(
        word(line, 2),
        word(line, 3),
        word(line, 4),
        word(line, 5),
        &mut group_room,
        &mut user_room,
        &mut host_room,
    );
    put_changed(
        rt,
        register::change(
            &mut r.places,
            &r.states,
            &r.values,
            &r.table,
            place,
            c.group,
            c.user,
            c.host,
            c.level,
        ),
    );
}

fn remove(rt: &(impl Print + Eprint), r: &mut Register, line: &[u8]) {
    let place = number(word(line, 1)) as usize;
    put_changed(rt, place::remove(&mut r.places, place));
}

fn set(rt: &(impl Print + Eprint), r: &mut Register, line: &[u8]) {
    let mut room = [0; MOST_TEXT];
    let group = text(word(line, 1), &mut room);
    let letter = number(word(line, 2));
    let reading = vec_words::reading(word(line, 3));
    put_changed(
        rt,
        reading::set(
            &mut r.places,
            &mut r.states,
            &mut r.values,
            &r.table,
            group,
            letter,
            reading,
        ),
    );
}

// No answer reads as what is printed for a line that is no call. A load is the caller's to make.
pub fn make(rt: &(impl Print + Eprint), r: &mut Register, line: &[u8]) {
    match vec_calls::call_of(line) {
        Some(Call::Add) => add(rt, r, line),
        Some(Call::Change) => change(rt, r, line),
        Some(Call::Remove) => remove(rt, r, line),
        Some(Call::Set) => set(rt, r, line),
        Some(Call::Load) | None => {
            prog_output::put(rt, b"no call");
        }
    }
}
