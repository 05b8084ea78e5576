// What programs print of the answers, and how they read tables: no logic.
#![tactic(auto)]

use input::next_word;
use numbers::refusal::Refusal;
use std::io;
use std::io::{BufWriter, Printer, Read, Write};

pub mod arguments;
pub mod failure;
pub mod input;
pub mod proposition;
pub mod tree;

// Standard output, in large pieces; or, where there is no memory for one, as it comes.
pub fn output<R: Print + Alloc>(rt: &R) -> BufWriter<Printer<'_, R>, R::A> {
    match BufWriter::new(rt.alloc(), io::writer(rt)) {
        Ok(out) => out,
        Err(_) => BufWriter::with_capacity(rt.alloc(), 0, io::writer(rt)).unwrap(),
    }
}

// Answers the input's tables in turn, each after its length, until a length is 0 or the input ends. An answer stands between a line with its number and
// an empty one; `answer` reads the table, of that length, and what else there is to read.
pub fn each<R: Read, W: Write, F: Fn(&mut R, &mut W, usize) -> io::Result<()>>(
    from: &mut R,
    out: &mut W,
    answer: F,
) -> io::Result<()>
    requires { F.IsAlwaysCallable answer }
{
    for count in 0..u64::MAX {
        let size = next_word(from);
        if size == 0 {
            break;
        }
        writeln!(out, "table {count}")?;
        answer(from, out, size)?;
        writeln!(out)?;
    }
    Ok(())
}

// `refused` with the number and the place. The line's end is left to the caller.
pub fn refusal<W: Write>(out: &mut W, e: Refusal) -> io::Result<()> {
    write!(out, "refused {} {}", e.number, e.place)
}

// The same as a line.
pub fn refused<W: Write>(out: &mut W, e: Refusal) -> io::Result<()> {
    refusal(out, e)?;
    writeln!(out)
}

// `passes`, or the refusal.
pub fn answer<W: Write>(out: &mut W, verdict: Result<(), Refusal>) -> io::Result<()> {
    match verdict {
        Ok(()) => writeln!(out, "passes"),
        Err(e) => refused(out, e),
    }
}
