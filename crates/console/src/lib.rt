// The programs' standard streams and their outcome, and short texts put into a buffer: what the programs share. Nothing is promised of these
// but that they are safe and end. Each function is passed what it may reach: a stream by its handle, the outcome's descriptor as a file.
#![tactic(auto)]

use std::fs::{File, Files, OpenOptions};
use std::io;
use std::io::{ErrorKind, Read, Stderr, Stdin, Stdout, Write};
pub use text::front;

// What a program writes to descriptor 3 as its last act, since its status says nothing: the dump was whole, it was not, or reading or
// writing failed.
pub const WHOLE: u8 = b'0';

pub const PARTIAL: u8 = b'1';

pub const FAILED: u8 = b'2';

// How often a call is made that is interrupted each time: so that it ends.
const TRIES: u64 = 1000000;

// Descriptor 3 by name: std reaches no descriptor by its number but those of the standard streams.
const OUTCOME: &str = "/proc/self/fd/3";

// What Linux tells of descriptor 3, line by line.
const ABOUT: &str = "/proc/self/fdinfo/3";

// How the line begins that tells what it was opened for.
const FLAGS: &[u8] = b"flags:";

// Reads standard input until it ends or the buffer is full.
pub fn read_input(stdin: Stdin, buf: &mut [u8]) -> Option<usize> {
    let mut from = stdin;
    let mut n: usize = 0;
    while n < buf.len() {
        let room = buf.len() - n;
        let Ok(got) = read_some(&mut from, &mut buf[n..]) else {
            return None;
        };
        if got == 0 {
            break;
        }
        n += got.min(room);
    }
    Some(n)
}

// Writes the first n bytes of a buffer to standard output, and answers whether all were written.
pub fn write_front(stdout: Stdout, s: &[u8], n: usize) -> bool {
    let mut to = stdout;
    write_all(&mut to, front(s, n))
}

// Writes a line to standard error. Where that fails too, the outcome is left to say so.
pub fn write_error(stderr: Stderr, line: &[u8]) {
    let mut to = stderr;
    write_all(&mut to, line);
}

// Writes the outcome, if somebody takes it: where descriptor 3 is open for writing. What it is, is opened anew: to append, as what was
// written there before stays, and to read too, as a pipe that nobody reads any more would be waited for.
pub fn write_outcome(files: &impl Files, digit: u8) {
    if !takes_outcome(files) {
        return;
    }
    let mut how = OpenOptions::new();
    how.read(true);
    how.append(true);
    let Ok(file) = how.open(files, OUTCOME) else {
        return;
    };
    let mut to = file;
    write_all(&mut to, &[digit]);
}

// The last act of a program that failed: the line says how.
pub fn fail(stderr: Stderr, files: &impl Files, line: &[u8]) {
    write_error(stderr, line);
    write_outcome(files, FAILED);
}

// The last act of a program: whether its input was whole, unless it was not all written, as the line says.
pub fn finish(stderr: Stderr, files: &impl Files, written: bool, whole: bool, line: &[u8]) {
    if !written {
        fail(stderr, files, line);
        return;
    }
    if whole {
        write_outcome(files, WHOLE);
        return;
    }
    write_outcome(files, PARTIAL);
}

// Whether descriptor 3 is open for writing. The line that tells it is among the first.
fn takes_outcome(files: &impl Files) -> bool {
    let Ok(file) = File::open(files, ABOUT) else {
        return false;
    };
    let mut from = file;
    let mut about = [0u8; 256];
    match read_some(&mut from, &mut about) {
        Ok(n) => tells_writing(front(&about, n)),
        Err(_) => false,
    }
}

// Whether lines about a descriptor tell that it is open for writing: the last digit of its flags, which are octal, is 1 or 2 in its lowest
// two bits, for writing alone or for reading too.
fn tells_writing(about: &[u8]) -> bool {
    about
        .split_inclusive(|&b| b == b'\n')
        .find(|line| line.starts_with(FLAGS))
        .is_some_and(|line| matches!(line, [.., b'1' | b'2' | b'5' | b'6', b'\n']))
}

// Writes all of `s`, and answers whether it could. By hand: of interrupted writes std's `write_all` takes a few to a standard stream, and
// to a file so many that it would not end. A write that moves nothing would move nothing again: it ends this as one that fails.
fn write_all<W: Write>(to: &mut W, s: &[u8]) -> bool {
    let mut rest = s;
    while !rest.is_empty() {
        match write_some(to, rest) {
            Ok(n) if 0 < n => rest = rest.get(n..).unwrap_or(&[]),
            _ => return false,
        }
    }
    true
}

// One read, made again where it was interrupted.
fn read_some<R: Read>(from: &mut R, buf: &mut [u8]) -> io::Result<usize> {
    for _ in 0..TRIES {
        match from.read(buf) {
            Err(e) if e.kind() == ErrorKind::Interrupted => {}
            got => return got,
        }
    }
    Err(io::Error::from(ErrorKind::Interrupted))
}

// One write, made again where it was interrupted.
fn write_some<W: Write>(to: &mut W, s: &[u8]) -> io::Result<usize> {
    for _ in 0..TRIES {
        match to.write(s) {
            Err(e) if e.kind() == ErrorKind::Interrupted => {}
            put => return put,
        }
    }
    Err(io::Error::from(ErrorKind::Interrupted))
}

// Puts `word` into `out` from `at` on, as far as there is room, and answers the place after it. So do all that follow.
pub fn put(out: &mut [u8], at: usize, word: &[u8]) -> usize {
    let Some(room) = out.get_mut(at..) else {
        return at;
    };
    let n = word.len().min(room.len());
    room[..n].copy_from_slice(&word[..n]);
    at + n
}

pub fn put_byte(out: &mut [u8], at: usize, b: u8) -> usize {
    let Some(place) = out.get_mut(at) else {
        return at;
    };
    *place = b;
    at + 1
}

pub fn put_number(out: &mut [u8], at: usize, n: u64) -> usize {
    put(out, at, number::decimal(n).as_bytes())
}
