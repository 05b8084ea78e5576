// How programs read: a whole file, or tables from standard input, each after its length.
ghost use Rattle.std.specs.Prelude.{IfSome, IfOk};
ghost use Rattle.show.specs.Counts.{IsPrefixLen};

use super::arguments::{ARGUMENT, name_of, text_argument};
use super::failure::tell_error;
use std::io::Read;
use std::rt::{Env, Files};
use std::{fs, io};

// Longer than any table that passes. Of a longer file a program reads so much: its header is there, and no count goes with such a
// length, so tests 2 and 3 answer the same.
pub const LONGEST: usize = 65536;

// One read. It puts nothing there at the input's end, and where it fails. (A count, here and below, and no slice: no clause says what a room that is
// lent on with a slice holds afterwards, nor that it keeps its length.)
fn read_some<R: Read>(from: &mut R, room: &mut [u8]) -> usize
    ensures { IsPrefixLen result room.new }
{
    from.read(room).unwrap_or(0)
}

// Reads until the room is full, the input ends or a read fails. The answer counts the bytes that are then at the room's start.
fn read_full<R: Read>(from: &mut R, room: &mut [u8]) -> usize
    ensures { IsPrefixLen result room.new }
{
    let mut done = 0;
    // No `for`: each read gives as many as it will.
    while done < room.len() {
        let n = read_some(from, &mut room[done..]);
        if n == 0 {
            break;
        }
        done += n;
    }
    done
}

// `read_full` does not say why it stopped. At a file's end one more read gives nothing; after a failure it fails again.
fn fails<R: Read>(from: &mut R) -> io::Result<()> {
    from.read(&mut [0])?;
    Ok(())
}

// The first bytes of a file, as many as the room has.
fn read_open<R: Files>(rt: &R, path: &str, room: &mut [u8]) -> io::Result<usize>
    ensures { IfOk result (λ n. IsPrefixLen n room.new) }
{
    let mut file = fs::open(rt, path)?;
    let got = read_full(&mut file, room);
    fails(&mut file)?;
    Ok(got)
}

// The same, of a file by its name. The answer counts them, or is `None` where the file cannot be read; standard error then says which it is and
// why.
fn read_file<R: Files + Eprint>(rt: &R, spelled: &[u8], room: &mut [u8]) -> Option<usize>
    ensures { IfSome result (λ n. IsPrefixLen n room.new) }
{
    let path = name_of(rt, spelled)?;
    match read_open(rt, path, room) {
        Ok(got) => Some(got),
        Err(e) => {
            tell_error(rt, path, e);
            None
        }
    }
}

// The same of the file that argument i names.
pub fn read_argument<R: Env + Files + Eprint>(rt: &R, i: usize, room: &mut [u8]) -> Option<usize>
    ensures { IfSome result (λ n. IsPrefixLen n room.new) }
{
    let mut path = [0u8; ARGUMENT];
    let n = text_argument(rt, i, &mut path)?;
    read_file(rt, &path[..n], room)
}

// The next 32-bit number of the input, low byte first; 0 where the input ends.
pub fn next_word<R: Read>(from: &mut R) -> usize {
    let mut four = [0u8; 4];
    if read_full(from, &mut four) < 4 {
        return 0;
    }
    u32::from_le_bytes(four) as usize
}

// Reads so many bytes and forgets them, or as many as there are.
fn skip<R: Read>(from: &mut R, count: usize) {
    for _ in 0..count {
        if read_full(from, &mut [0]) == 0 {
            return;
        }
    }
}

// The first bytes of a table of that length, as many as the room has; the others are skipped. The answer counts them.
pub fn read_table<R: Read>(from: &mut R, room: &mut [u8], size: usize) -> usize
    ensures { IsPrefixLen result room.new }
{
    let most = size.min(room.len());
    let got = read_full(from, &mut room[..most]);
    skip(from, size - most);
    got
}
