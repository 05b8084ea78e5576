// A program's arguments: as text, as a number, and as the name of a file to write.
ghost use Rattle.std.specs.Prelude.{◌<◌, ◌≤◌, IfSome};
ghost use Rattle.show.specs.Counts.{IsPrefixLen};

use super::failure::{tell, tell_error};
use std::env::FillError;
use std::io::Write;
use std::rt::{Env, Files};
use std::{fs, io};

// Longer than any file's name.
pub const ARGUMENT: usize = 4096;

// How many arguments the program was started with, its own name among them.
pub fn argument_count<R: Env>(rt: &R) -> usize {
    for i in 0..usize::MAX {
        if let Err(FillError::NotPresent) = rt.arg(i, &mut [0]) {
            return i;
        }
    }
    usize::MAX
}

// The text of argument i at the start of the room. The answer counts its bytes, or is `None` where it does not fit; standard error then says so.
pub fn text_argument<R: Env + Eprint>(rt: &R, i: usize, room: &mut [u8]) -> Option<usize>
    ensures { IfSome result (λ n. IsPrefixLen n room.new) }
{
    match rt.arg(i, room) {
        Ok(n) => Some(n),
        Err(FillError::TooLong) => {
            tell(rt, "an argument", "File name too long");
            None
        }
        Err(FillError::NotPresent) => {
            tell(rt, "an argument", "Invalid argument");
            None
        }
    }
}

// A decimal digit's value.
fn digit(b: u8) -> Option<u16>
    ensures { IfSome result (λ d. d < 10) }
{
    let d = char::from(b).to_digit(10)?;
    Some(d as u16)
}

// The number with one digit more. The largest stands for all that are about as large or larger: nothing that a program counts goes so far.
fn longer(n: u16, d: u16) -> u16
    requires { d ≤ 10 }
{
    if n < u16::MAX / 10 {
        10 * n + d
    } else {
        u16::MAX
    }
}

// What a text spells, where it is one decimal digit or more.
fn number_of(spelled: &[u8]) -> Option<u16> {
    if spelled.is_empty() {
        return None;
    }
    let mut n = 0;
    for b in spelled {
        n = longer(n, digit(*b)?);
    }
    Some(n)
}

// What argument i spells, where it is a number.
pub fn number_argument<R: Env + Eprint>(rt: &R, i: usize) -> Option<u16> {
    let mut room = [0u8; ARGUMENT];
    let n = text_argument(rt, i, &mut room)?;
    number_of(&room[..n])
}

// A file's name as text, which is what the library opens; where it is none, standard error says so.
pub fn name_of<'a, R: Eprint>(rt: &R, spelled: &'a [u8]) -> Option<&'a str> {
    match std::str::from_utf8(spelled) {
        Ok(name) => Some(name),
        Err(_) => {
            tell(
                rt,
                "an argument",
                "Invalid or incomplete multibyte or wide character",
            );
            None
        }
    }
}

fn write_file<R: Files>(rt: &R, path: &str, bytes: &[u8]) -> io::Result<()> {
    let mut file = fs::create(rt, path)?;
    file.write_all(bytes)
}

// The same of the file that is spelled so; where that fails, standard error says why.
fn write_named<R: Files + Eprint>(rt: &R, spelled: &[u8], bytes: &[u8]) {
    if let Some(path) = name_of(rt, spelled) {
        if let Err(e) = write_file(rt, path, bytes) {
            tell_error(rt, path, e);
        }
    }
}

// Writes the bytes to the file that argument i names. Where that fails, standard error says why.
pub fn write_argument<R: Env + Files + Eprint>(rt: &R, i: usize, bytes: &[u8]) {
    let mut room = [0u8; ARGUMENT];
    if let Some(n) = text_argument(rt, i, &mut room) {
        write_named(rt, &room[..n], bytes);
    }
}
