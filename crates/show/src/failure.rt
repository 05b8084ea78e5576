// What standard error says where a file or an argument cannot be read or written: the name, a colon and the reason.
use std::io;
use std::io::{Cursor, Write};

// Where even that cannot be written, nobody is left to be told.
pub fn tell<R: Eprint>(rt: &R, what: &str, why: &str) {
    let _ = rt.eprintln(format_args!("{what}: {why}"));
}

// The system's words for an error, which the library writes with its number behind them.
fn without_number(text: &str) -> &str {
    match text.split_once(" (os error ") {
        Some((words, _)) => words,
        None => text,
    }
}

// Why a read or a write failed. No reason is longer than the room.
pub fn tell_error<R: Eprint>(rt: &R, what: &str, e: io::Error) {
    let mut said = Cursor::new([0u8; 256]);
    let _ = write!(said, "{e}");
    let n = said.position().min(256) as usize;
    let room = said.into_inner();
    match std::str::from_utf8(&room[..n]) {
        Ok(text) => tell(rt, what, without_number(text)),
        Err(_) => tell(rt, what, "an error"),
    }
}
