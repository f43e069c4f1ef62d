// Reading files. No contract can say what is read; but a read that fails is never taken for the end of a file.
#![tactic(auto)]

ghost use Rattle.std.specs.Prelude.{◌≤◌, IfOk};
ghost use Rattle.io.specs.Counts.{IsPrefixLen};

use prog_text::Writer;
use std::fs;
use std::io::{self, Eprint, ErrorKind, Read};
use std::rt::Files;

// More rounds than any input has bytes.
const MOST: u64 = 4611686018427387904;

// As much as is read at once: n bytes, at most 4,096.
pub fn at_most(n: usize) -> usize
    ensures { result ≤ 4096 }
{
    n.min(4096)
}

// Reads once into buf, as `Read::read` does, but a read that a signal interrupts is made again.
// Behind the bytes that were read, and after a fault, what buf holds is open.
pub fn read_piece(from: &mut impl Read, buf: &mut [u8]) -> io::Result<usize>
    ensures { IfOk result (λ n. IsPrefixLen n buf.new) }
{
    for tried in 0..MOST {
        prove!(tried < 1 << 62);
        match from.read(buf) {
            Ok(n) => return Ok(n),
            Err(e) => {
                if e.kind() != ErrorKind::Interrupted {
                    return Err(e);
                }
            }
        }
    }
    Err(io::Error::from(ErrorKind::Interrupted))
}

// Reads an open file to its end, keeps its first bytes in buf, as many as have room, and answers how many. A file that
// cannot be read to its end counts as empty.
pub fn read_whole(from: &mut impl Read, buf: &mut [u8]) -> usize
    ensures { IsPrefixLen result buf.new }
{
    let mut piece = [0u8; 4096];
    let mut kept = Writer::new(buf);
    for round in 0..MOST {
        prove!(round < 1 << 62);
        match read_piece(from, &mut piece) {
            Ok(0) => return kept.at,
            Ok(n) => kept.put(&piece[..n]),
            Err(_) => return 0,
        }
    }
    0
}

// Reads an open file, and closes it.
fn read_open(mut file: impl Read + Drop, buf: &mut [u8]) -> usize
    ensures { IsPrefixLen result buf.new }
{
    read_whole(&mut file, buf)
}

// Reads a file; one that is missing is an empty one. A path that is no UTF-8 names none.
pub fn read_or_empty(rt: &impl Files, path: &[u8], buf: &mut [u8]) -> usize
    ensures { IsPrefixLen result buf.new }
{
    let Ok(name) = std::str::from_utf8(path) else {
        return 0;
    };
    match fs::open(rt, name) {
        Ok(file) => read_open(file, buf),
        Err(_) => 0,
    }
}

// Reads a file; standard error says why one is missing.
pub fn read(rt: &(impl Files + Eprint), path: &[u8], buf: &mut [u8]) -> usize
    ensures { IsPrefixLen result buf.new }
{
    let name = match std::str::from_utf8(path) {
        Ok(name) => name,
        Err(e) => {
            let _ = eprintln!(rt; "the path of a file: {e}");
            return 0;
        }
    };
    match fs::open(rt, name) {
        Ok(file) => read_open(file, buf),
        Err(e) => {
            let _ = eprintln!(rt; "{name}: {e}");
            0
        }
    }
}
