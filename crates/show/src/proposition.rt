// A proposition of its room, written out: T, F, (& p q), (| p q), (> p q), (A name datatype p), (E name datatype p), (p predicate parameters).
// A name is n and its number; a parameter is f and its name, s and a serial, or b and the quantifiers between the atom and its own.
use numbers::record::{Record, record_at};
use prop::atom::{Parameter, parameter_at};
use prop::node::{AND, ATOM, EXISTS, FALSE, FOR_ALL, IMPL, OR, TRUE};
use std::io::Write;
use std::{fmt, io};

fn parameter<W: fmt::Write>(f: &mut fmt::Formatter<W>, p: Parameter) -> fmt::Result {
    match p {
        Parameter::Free(x) => write!(f, " fn{}", x.0),
        Parameter::Identifier(i) => write!(f, " s{}", i.0),
        Parameter::Bound(k) => write!(f, " b{k}"),
        Parameter::Unused => Ok(()),
    }
}

fn atom<W: fmt::Write>(f: &mut fmt::Formatter<W>, r: Record) -> fmt::Result {
    write!(f, "(p n{}", r.a)?;
    for i in 0..4 {
        parameter(f, parameter_at(r, i))?;
    }
    write!(f, ")")
}

// Proposition n. Its parts have smaller numbers.
pub fn format_proposition<W: fmt::Write>(
    f: &mut fmt::Formatter<W>,
    room: &[u8],
    n: u16,
) -> fmt::Result {
    let i = usize::from(n);
    if room.len() < 16 * i + 16 {
        return Ok(());
    }
    let r = record_at(room, i);
    match r.kind {
        TRUE => write!(f, "T"),
        FALSE => write!(f, "F"),
        AND..=IMPL => {
            let link = match r.kind {
                AND => '&',
                OR => '|',
                _ => '>',
            };
            write!(f, "({link} ")?;
            if r.a < n {
                format_proposition(f, room, r.a)?;
            }
            write!(f, " ")?;
            if r.b < n {
                format_proposition(f, room, r.b)?;
            }
            write!(f, ")")
        }
        FOR_ALL..=EXISTS => {
            let quantifier = if r.kind == FOR_ALL { 'A' } else { 'E' };
            write!(f, "({quantifier} n{} n{} ", r.a, r.b)?;
            if r.c < n {
                format_proposition(f, room, r.c)?;
            }
            write!(f, ")")
        }
        ATOM..=255 => atom(f, r),
    }
}

#[derive(Clone, Copy)]
struct Written<'a> {
    room: &'a [u8],
    n: u16,
}

impl fmt::Display for Written<'_> {
    fn fmt<W: fmt::Write>(&self, f: &mut fmt::Formatter<W>) -> fmt::Result {
        format_proposition(f, self.room, self.n)
    }
}

// The same for a writer of bytes.
pub fn proposition<W: Write>(out: &mut W, room: &[u8], n: u16) -> io::Result<()> {
    write!(out, "{}", Written { room, n })
}
