// What the replay programs share: the stream of cases that they read, and the canonical form of docs/ORACLE.md that they print.
// Nothing is promised of these but that they are safe and end: what they print is held to the oracle's answers.
#![tactic(auto)]

pub mod line;

pub use console::{front, put, put_byte, write_front};
pub use line::{put_case, put_number, put_open, put_text, put_values, put_word};
use std::fs::Files;
use std::io::{Stderr, Stdin, Stdout};
use text::Text;
pub use text::least;

// The case that begins at `at`: its length in decimal, LF, so many bytes, LF.
pub fn case_at(input: &[u8], at: usize) -> Option<Text> {
    let mut len: usize = 0;
    for i in at..input.len() {
        let b = input[i];
        if b == b'\n' {
            return case_in(input, i + 1, len);
        }
        if !b.is_ascii_digit() || 100000000 < len {
            return None;
        }
        len = len * 10 + usize::from(b - b'0');
    }
    None
}

// A case that was cut off is none.
fn case_in(input: &[u8], start: usize, len: usize) -> Option<Text> {
    if input.len() < start || input.len() - start <= len {
        return None;
    }
    Some(Text { start, len })
}

// The place after a case and its LF; the end where that is past it.
pub fn after(input: &[u8], t: Text) -> usize {
    if input.len() <= t.start || input.len() - t.start <= t.len {
        return input.len();
    }
    t.start + t.len + 1
}

// The next case of a stream that is read a buffer at a time, and how many bytes of the buffer are filled.
#[derive(Clone, Copy)]
pub struct Fed {
    pub case: Option<Text>,
    pub have: usize,
}

// The case at `at`; where the buffer has not the whole of it, the rest is read after what is there of it.
pub fn next_case(stdin: Stdin, buf: &mut [u8], at: usize, have: usize) -> Fed {
    let case = case_at(front(buf, have), at);
    if let Some(_) = case {
        return Fed { case, have };
    }
    let kept = to_front(buf, at, have);
    let filled = read_on(stdin, buf, kept);
    let more = case_at(front(buf, filled), 0);
    Fed {
        case: more,
        have: filled,
    }
}

// Moves the bytes from `at` to `have` to the front, and answers how many they are.
fn to_front(buf: &mut [u8], at: usize, have: usize) -> usize {
    let end = least(have, buf.len());
    if end < at {
        return 0;
    }
    buf.copy_within(at..end, 0);
    end - at
}

// Fills the buffer from `at` on, and answers where it is filled to.
fn read_on(stdin: Stdin, buf: &mut [u8], at: usize) -> usize {
    if buf.len() < at {
        return at;
    }
    let room = buf.len() - at;
    at + least(read_input(stdin, &mut buf[at..]), room)
}

// The line that begins at `at`, without its LF.
pub fn line_at(case: &[u8], at: usize) -> Text {
    let rest = text::part(
        case,
        Text {
            start: at,
            len: case.len(),
        },
    );
    let len = span(rest, b'\n');
    Text { start: at, len }
}

// How many bytes stand before the first `b`.
pub fn span(s: &[u8], b: u8) -> usize {
    s.iter().position(|&c| c == b).unwrap_or(s.len())
}

// The words of a line from the k-th on, counted from 0. One space stands after each but the last.
pub fn words_from(line: &[u8], k: u64) -> &[u8] {
    let mut rest = line;
    for _ in 0..k {
        let Some(i) = rest.iter().position(|&b| b == b' ') else {
            return &[];
        };
        rest = &rest[i + 1..];
    }
    rest
}

// The k-th word of a line.
pub fn word(line: &[u8], k: u64) -> &[u8] {
    let rest = words_from(line, k);
    front(rest, span(rest, b' '))
}

// The number that a text means; 0 where it means none.
pub fn number_in(s: &[u8]) -> u64 {
    match number::parse_u64(s) {
        Some(v) => v,
        None => 0,
    }
}

// Writes what is answered once the buffer is half full, and answers how much of it is used then. What cannot be written stays.
pub fn flush(stdout: Stdout, out: &[u8], used: usize) -> usize {
    if out.len() / 2 < used && write_front(stdout, out, used) {
        0
    } else {
        used
    }
}

// Reads standard input. A read that fails ends it, and `finish` meets it again.
pub fn read_input(stdin: Stdin, buf: &mut [u8]) -> usize {
    match console::read_input(stdin, buf) {
        Some(n) => n,
        None => 0,
    }
}

// The last act of a program that answers all of standard input: it fails where no more can be read or the last answers were not
// written, and is not whole where something is left to be read.
pub fn finish(stdin: Stdin, stderr: Stderr, files: &impl Files, written: bool) {
    let mut more = [0u8; 1];
    match console::read_input(stdin, &mut more) {
        Some(n) => console::finish(stderr, files, written, n == 0, b"replay: writing failed\n"),
        None => console::fail(stderr, files, b"replay: reading failed\n"),
    }
}
