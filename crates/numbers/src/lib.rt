// Floor 1: the four kinds of number, fresh serials, and rooms of bytes read and written as 16-byte records.
#![tactic(auto)]

ghost use Rattle.std.specs.Prelude.{◌≡◌, ◌+◌, ◌<◌, length};
ghost use Rattle.numbers.specs.Records.{word_at};

pub mod counter;
pub mod identifier;
pub mod record;
pub mod refusal;
pub mod room;

use record::word;

// What a student calls something: a variable, an object, a predicate or a datatype. Every 16-bit number is a name.
#[derive(Clone, Copy, Debug, PartialEq, Eq)]
pub struct Name(pub u16);

// An identifier's own number: they are counted from 0 in the order in which they are made.
#[derive(Clone, Copy, Debug, PartialEq, Eq)]
pub struct Serial(pub u16);

// The number of a record of the propositions room, the table's records first.
#[derive(Clone, Copy, Debug, PartialEq, Eq)]
pub struct Proposition(pub u16);

// The number of a term's record in the table.
#[derive(Clone, Copy, Debug, PartialEq, Eq)]
pub struct Term(pub u16);

impl Name {
    // The number that stands at two bytes of b, as on each of these types. (No trait has them: document 01 names the four constructors.)
    pub fn from_bytes(b: &[u8], at: usize) -> Self
        requires { at + 1 < length b.now }
        ensures { result.0 ≡ word_at b.now at }
    {
        Name(word(b, at))
    }
}

impl Serial {
    // Where a tree record has no serial.
    pub const NONE: Serial = Serial(65535);
    // No term makes more than two.
    pub const LIMIT: u16 = 2 * Term::LIMIT;

    pub fn from_bytes(b: &[u8], at: usize) -> Self
        requires { at + 1 < length b.now }
        ensures { result.0 ≡ word_at b.now at }
    {
        Serial(word(b, at))
    }
}

impl Proposition {
    // The expected field of a filling.
    pub const NONE: Proposition = Proposition(65535);
    // How many a table may have, how many a run may make, and how high one may be.
    pub const LIMIT: u16 = 1024;

    pub const MADE: u16 = 2048;

    pub const HEIGHT: u8 = 32;

    pub fn from_bytes(b: &[u8], at: usize) -> Self
        requires { at + 1 < length b.now }
        ensures { result.0 ≡ word_at b.now at }
    {
        Proposition(word(b, at))
    }
}

impl Term {
    // How many a table may have, and how deep one may stand.
    pub const LIMIT: u16 = 512;

    pub const DEPTH: u8 = 64;

    pub fn from_bytes(b: &[u8], at: usize) -> Self
        requires { at + 1 < length b.now }
        ensures { result.0 ≡ word_at b.now at }
    {
        Term(word(b, at))
    }
}

// A type is a proposition or a datatype.
#[derive(Clone, Copy, Debug, PartialEq, Eq)]
pub enum Sort {
    Proposition(Proposition),
    Datatype(Name),
}
