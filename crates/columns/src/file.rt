// A file that is read whole, into room that the caller lends. Assumes nothing.
ghost use Rattle.std.specs.Prelude.{◌<◌, length, IfSome};
ghost use Rattle.columns.specs.Counts.{IsPrefixLen};

use std::io::{Print, Read};
use std::rt::Files;
use std::{fs, str};

// Puts a file at the front of out and gives how many bytes it has. Where it is not there, or has not
// fewer bytes than out, it says so and gives out's length. Where a read fails the file ends.
// Kept (may not change): callers lend the buffer, of any length, and know a refusal by its length; nothing is allocated.
pub fn read(rt: &(impl Files + Print), name: &[u8], out: &mut [u8]) -> usize
    ensures { IsPrefixLen result out.new }
{
    let Some(mut file) = open(rt, name) else {
        fault(rt, name, "CANNOT BE OPENED");
        return out.len();
    };
    let n = fill(&mut file, out);
    if n == out.len() {
        fault(rt, name, "IS TOO LONG");
    }
    n
}

// The bytes of a file, where it is there and has fewer than the room; else that is printed.
pub fn text<'a>(rt: &(impl Files + Print), name: &str, room: &'a mut [u8]) -> Option<&'a [u8]>
    ensures { IfSome result (λ text. length text.now < length room.old) }
{
    let n = read(rt, name.as_bytes(), room);
    if n < room.len() {
        Some(&room[..n])
    } else {
        None
    }
}

// A file's name is text: no other is opened.
fn open<R: Files>(rt: &R, name: &[u8]) -> Option<R::File> {
    fs::open(rt, str::from_utf8(name).ok()?).ok()
}

// Reads until out is full, the file ends or a read fails, and gives how many bytes it put at the front of out.
// Kept (no plainer): a read says how many bytes it put, and the library fills no slice up to a file's end: `read_exact` is an error there.
fn fill(file: &mut impl Read, out: &mut [u8]) -> usize
    ensures { IsPrefixLen result out.new }
{
    let mut done = 0;
    while let Ok(n @ 1..) = file.read(&mut out[done..]) {
        done += n;
    }
    done
}

// A name that is no text is printed as it stands.
fn fault(rt: &impl Print, name: &[u8], what: &str) {
    let _ = rt.write_all(name);
    let _ = println!(rt; " {what}");
}

#[cfg(test)]
mod tests {
    use super::*;
    use std::test::Fail;

    #[test]
    fn reads_a_file(rt: HostRuntime) -> Result<(), Fail> {
        fs::write(&rt, "columns_test.txt", "one\ntwo")?;
        let mut room = [0; 16];
        let text = text(&rt, "columns_test.txt", &mut room).ok_or("not read")?;
        fs::remove_file(&rt, "columns_test.txt")?;
        assert_eq!(rt; text, b"one\ntwo".as_slice());
        Ok(())
    }
}
