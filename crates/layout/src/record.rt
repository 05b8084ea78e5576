// Where a table's records stand: the header is as long as one, then come the propositions, then the terms.
ghost use Rattle.std.specs.Prelude.{◌≡◌, ◌+◌, ◌*◌, ◌≤◌, length};
ghost use Rattle.numbers.specs.Records.{record_at};
ghost use Rattle.layout.specs.File.{prop_record, as_term};

use numbers::record::{Record, record_at};
use numbers::{Name, Proposition, Term};

// A term's record: sixteen bytes under a term's names.
#[derive(Clone, Copy, Debug, PartialEq, Eq)]
pub struct TermRecord {
    pub kind: u8,
    pub tag: u8,
    pub typ: u16,
    pub name1: Name,
    pub name2: Name,
    pub child1: Term,
    pub child2: Term,
    pub child3: Term,
    pub zero: u16,
}

impl From<Record> for TermRecord {
    ghost from_gives = { λ r t. t ≡ as_term r };

    fn from(r: Record) -> Self {
        TermRecord {
            kind: r.kind,
            tag: r.count,
            typ: r.a,
            name1: Name(r.b),
            name2: Name(r.c),
            child1: Term(r.parameters[0]),
            child2: Term(r.parameters[1]),
            child3: Term(r.parameters[2]),
            zero: r.parameters[3],
        }
    }
}

pub fn proposition_at(file: &[u8], n: Proposition) -> Record
    requires { 16 * (n.0 + 1) + 16 ≤ length file.now }
    ensures { result ≡ prop_record file.now n.0 }
{
    record_at(file, n.0 as usize + 1)
}

// Term t of a table that has p propositions.
pub fn term_at(file: &[u8], p: u16, t: Term) -> TermRecord
    requires { 16 * (p + t.0 + 1) + 16 ≤ length file.now }
    ensures { result ≡ as_term (record_at file.now (p + t.0 + 1)) }
{
    TermRecord::from(record_at(file, p as usize + t.0 as usize + 1))
}
