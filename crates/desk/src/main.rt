// The desk check of a recorded line: document 02, Ticket 1. Reads a recording from standard input, or each of the files that its arguments
// name, in pieces of at most 64 KiB, and prints the lines that `recording` gives. docs/RECORDING.md has the form and the lines.
// What the lines are is proved there; here bytes are read, handed on and written. Assumes nothing.
#![tactic(auto)]

use recording::desk::{Desk, TABLE_BYTES};
use recording::line::{Line, text_of};
use std::env::FillError;
use std::fmt::Write;
use std::io::{Eprint, ErrorKind, Input, Print, Read};
use std::ops::ControlFlow;
use std::rt::{Env, Files};
use std::{fmt, fs, io};

// A write that fails is passed over, here and below.
fn print(rt: &impl Print, line: Line) {
    let _ = rt.write_all(text_of(line).as_bytes());
}

// Room for the system's words of an error, which are fewer than 256 bytes, and its number behind them. What is past it is left out.
// Kept (no plainer): a String can fail for want of memory, and then the error would have no words.
#[derive(Drop)]
struct Words {
    bytes: [u8; 320],
    length: usize,
}

impl fmt::Write for Words {
    fn write_str(&mut self, s: &str) -> fmt::Result {
        for b in s.bytes() {
            if self.length < 320 {
                self.bytes[self.length] = b;
                self.length += 1;
            }
        }
        Ok(())
    }
}

// On standard error, a line of what failed and why: the system's words alone, without the error's number behind them.
fn fail(rt: &impl Eprint, what: &str, error: &io::Error) {
    let mut words = Words {
        bytes: [0; 320],
        length: 0,
    };
    let _ = write!(words, "{error}");
    let n = words.length.min(320);
    let text = std::str::from_utf8(&words.bytes[..n]).unwrap_or("");
    let _ = match text.split_once(" (os error ") {
        Some((alone, _)) => eprintln!(rt; "{what}: {alone}"),
        None => eprintln!(rt; "{what}: {text}"),
    };
}

// One call of `advance` for a record, and its line.
fn piece(rt: &impl Print, desk: Desk, table: &mut [u8], bytes: &[u8]) -> Desk {
    let mut now = desk;
    let mut rest = bytes;
    while !rest.is_empty() {
        let step = now.advance(table, rest);
        print(rt, step.line);
        now = step.desk;
        rest = &rest[step.took..];
    }
    now
}

// Reads once, and breaks off where there is no more to read. After the last line nothing more is read. Where a read fails, its reason is
// written to standard error, and the recording counts as ended there.
fn read_some(
    rt: &(impl Print + Eprint),
    input: &mut impl Read,
    name: &str,
    desk: Desk,
    table: &mut [u8],
) -> ControlFlow<Desk, Desk> {
    let mut bytes = [0u8; 65536];
    let n = match input.read(&mut bytes) {
        Ok(n) => n,
        Err(error) => {
            fail(rt, name, &error);
            0
        }
    };
    if n == 0 {
        return ControlFlow::Break(desk);
    }
    let next = piece(rt, desk, table, &bytes[..n]);
    if next.stage > 1 {
        return ControlFlow::Break(next);
    }
    ControlFlow::Continue(next)
}

// A proved loop has to end, and nothing says that a recording does. So the loop counts its turns, up to a number that no run reaches.
fn read_all(
    rt: &(impl Print + Eprint),
    input: &mut impl Read,
    name: &str,
    table: &mut [u8],
) -> Desk {
    let mut desk = Desk::new();
    for _ in 0..u64::MAX {
        match read_some(rt, input, name, desk, table) {
            ControlFlow::Continue(next) => desk = next,
            ControlFlow::Break(last) => return last,
        }
    }
    desk
}

fn check(rt: &(impl Print + Eprint), input: &mut impl Read, name: &str) {
    let mut table = [0u8; TABLE_BYTES];
    print(rt, read_all(rt, input, name, &mut table).finish());
}

fn check_file(rt: &(impl Files + Print + Eprint), name: &str) {
    match fs::open(rt, name) {
        Ok(mut file) => check(rt, &mut file, name),
        Err(error) => fail(rt, name, &error),
    }
}

// With more than one file, the lines of each stand behind its name. A path is text, so an argument that is none names no file.
fn argument(rt: &(impl Env + Files + Print + Eprint), i: usize, titled: bool) {
    let mut buffer = [0u8; 4096];
    let n = match rt.arg(i, &mut buffer) {
        Ok(n) => n,
        Err(_) => {
            fail(rt, "argument", &io::Error::from_raw_os_error(NAME_TOO_LONG));
            return;
        }
    };
    let name = &buffer[..n];
    if titled {
        let _ = rt.write_all(name);
        let _ = rt.write_all(b"\n");
    }
    match std::str::from_utf8(name) {
        Ok(name) => check_file(rt, name),
        Err(_) => fail(rt, "argument", &io::Error::from(ErrorKind::InvalidFilename)),
    }
}

// Linux's number of this error.
const NAME_TOO_LONG: i32 = 36;

fn is_there(rt: &impl Env, i: usize) -> bool {
    !matches!(rt.arg(i, &mut []), Err(FillError::NotPresent))
}

fn main(rt: HostRuntime) {
    if !is_there(&rt, 1) {
        check(&rt, &mut rt.reader(), "standard input");
        return;
    }
    let titled = is_there(&rt, 2);
    for i in 1..usize::MAX {
        if !is_there(&rt, i) {
            break;
        }
        argument(&rt, i, titled);
    }
}
