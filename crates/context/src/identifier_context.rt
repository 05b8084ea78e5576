// The context, as in the original's kernel/checker/identifier_context.rs without removal: a stack of entries in the work room. A rule
// inserts at the length that it was given, so what was entered before it stays below.
ghost use Rattle.std.specs.Prelude.{◌≡◌, ◌+◌, ◌*◌, ◌≤◌, length};
ghost use Rattle.context.specs.Context.{sort_of, tag_of, number_of, entry_at, Inserted, Latest};

use numbers::record::{put_word, word};
use numbers::{Name, Proposition, Serial, Sort, Term};

// What a name stands for. Document 01: the type, a proposition number or a datatype, is held inside each context entry.
#[derive(Clone, Copy)]
pub struct Entry {
    pub name: Name,
    pub serial: Serial,
    pub typ: Sort,
}

// No term enters more than two. An entry takes eight bytes.
pub const LIMIT: usize = 2 * (Term::LIMIT as usize);

pub const ROOM: usize = 8 * LIMIT;

// A type is kept as two numbers: a tag, 0 for a proposition and 1 for a datatype, and the number itself. (These are no `From`: the two numbers stand
// in two places of the bytes.)
pub fn sort_of(tag: u16, number: u16) -> Sort
    ensures { result ≡ sort_of tag number }
{
    match tag {
        0 => Sort::Proposition(Proposition(number)),
        _ => Sort::Datatype(Name(number)),
    }
}

fn tag_of(typ: Sort) -> u16
    ensures { result ≡ tag_of typ }
{
    match typ {
        Sort::Proposition(_) => 0,
        Sort::Datatype(_) => 1,
    }
}

fn number_of(typ: Sort) -> u16
    ensures { result ≡ number_of typ }
{
    match typ {
        Sort::Proposition(p) => p.0,
        Sort::Datatype(d) => d.0,
    }
}

// Entry i; the oldest is entry 0. Only this function and `insert` know where an entry's fields stand in its eight bytes.
#[tactic(auto, unfolding(crate::specs::Context::entry_at))]
pub fn entry_at(work: &[u8], i: usize) -> Entry
    requires { 8 * i + 8 ≤ length work.now }
    ensures { result ≡ entry_at work.now i }
{
    let at = 8 * i;
    Entry {
        name: Name::from_bytes(work, at),
        serial: Serial::from_bytes(work, at + 2),
        typ: sort_of(word(work, at + 4), word(work, at + 6)),
    }
}

// A context of len entries gets one more. Nothing else is written.
pub fn insert(work: &mut [u8], len: usize, e: Entry)
    requires { 8 * len + 8 ≤ length work.old }
    ensures { Inserted work.old len e work.new }
{
    let at = 8 * len;
    put_word(work, at, e.name.0);
    put_word(work, at + 2, e.serial.0);
    put_word(work, at + 4, tag_of(e.typ));
    put_word(work, at + 6, number_of(e.typ));
}

// Document 01: of entries with one name the one that came last counts. (C lends the room, which holds more than the entries, so their number goes
// beside it.)
pub fn get_by_name(work: &[u8], len: usize, name: Name) -> Option<Entry>
    requires { 8 * len ≤ length work.now }
    ensures { Latest work.now len name.0 result }
{
    for i in (0..len).rev() {
        let e = entry_at(work, i);
        if e.name == name {
            return Some(e);
        }
    }
    None
}
