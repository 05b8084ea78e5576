// A record of the propositions room, and the kinds of propositions. The kinds stay bytes: document 01's form matches the kind byte, with ranges. The
// walks that ask only for parts and atoms match a `View`.
ghost use Rattle.std.specs.Prelude.{◌≡◌, ◌<◌};
ghost use Rattle.numbers.specs.Records.{record_at};
ghost use Rattle.prop.specs.View.{ViewIs};

use super::propositions::Propositions;
use numbers::Proposition;
use numbers::record::{Record, record_at};

pub const TRUE: u8 = 0;

pub const FALSE: u8 = 1;

pub const AND: u8 = 2;

pub const OR: u8 = 3;

pub const IMPL: u8 = 4;

pub const FOR_ALL: u8 = 5;

pub const EXISTS: u8 = 6;

pub const ATOM: u8 = 7;

// What a walk over the trees asks of a proposition: the parts below it, or an atom's record.
#[derive(Clone, Copy)]
pub enum View {
    Constant,
    Link(Proposition, Proposition),
    Quantifier(Proposition),
    Atom(Record),
}

impl Propositions<'_> {
    // The record of proposition n, one of the first `count`.
    pub fn at(self, n: Proposition) -> Record
        requires { n.0 < self.count }
        ensures { result ≡ record_at self.entry.room.now n.0 }
    {
        record_at(self.room, usize::from(n.0))
    }

    pub fn view_at(self, n: Proposition) -> View
        requires { n.0 < self.count }
        ensures { ViewIs self.entry.room.now n.0 result }
    {
        let r = self.at(n);
        match r.kind {
            TRUE..=FALSE => View::Constant,
            AND..=IMPL => View::Link(Proposition(r.a), Proposition(r.b)),
            FOR_ALL..=EXISTS => View::Quantifier(Proposition(r.c)),
            ATOM..=255 => View::Atom(r),
        }
    }
}
