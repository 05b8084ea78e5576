// Two propositions, or two types, held against each other: equal, with binder names; alpha-equal, without; or neither. One walk answers both.
ghost use Rattle.std.specs.Prelude.{◌≡◌, ◌&&◌, ℕ, ◌<◌, eqb};
ghost use Rattle.prop.specs.Room.{room_at, type_at, TypeIn};
ghost use Rattle.prop.specs.Compare.{compared, both, is_alpha, same_fields, compared_props, compared_types};

use super::node::{AND, ATOM, EXISTS, FALSE, FOR_ALL, IMPL, TRUE};
use super::propositions::Propositions;
use numbers::record::Record;
use numbers::{Proposition, Sort};

// In this order two parts taken together are the greater of both.
#[derive(Clone, Copy, Debug, PartialEq, Eq, PartialOrd, Ord)]
pub enum Compared {
    Equal,
    Alpha,
    Apart,
}

impl Compared {
    // What is equal is alpha-equal too.
    pub fn is_alpha(self) -> bool
        ensures { result ≡ is_alpha self }
    {
        self != Compared::Apart
    }

    // Two parts taken together.
    fn and(self, other: Self) -> Self
        ensures { result ≡ both self other }
    {
        self.max(other)
    }
}

// The own fields of two quantifiers of one kind: the datatype, and the object's name.
#[tactic(auto, unfolding(crate::specs::Compare::compared))]
fn binders(r: Record, s: Record) -> Compared
    ensures { result ≡ compared (eqb r.a s.a && eqb r.b s.b) (eqb r.b s.b) }
{
    if r.b != s.b {
        return Compared::Apart;
    }
    if r.a == s.a {
        Compared::Equal
    } else {
        Compared::Alpha
    }
}

// Two atoms, field by field: what is not used is zero. (The four parameters one by one, as `same_fields` has them: the arrays' `==` is a call, with a
// promise of its own.)
fn atoms(r: Record, s: Record) -> Compared
    ensures { result ≡ compared (same_fields r s) (same_fields r s) }
{
    let parameters = (r.parameters[0] == s.parameters[0])
        & (r.parameters[1] == s.parameters[1])
        & (r.parameters[2] == s.parameters[2])
        & (r.parameters[3] == s.parameters[3]);
    if (r.a == s.a) & (r.count == s.count) & (r.b == s.b) & parameters {
        Compared::Equal
    } else {
        Compared::Apart
    }
}

impl Propositions<'_> {
    // The walk is over the trees, and is over at once where the two numbers are the same. (By reference: a walk that took the value would copy it at
    // each node.)
    pub fn compare(&self, a: Proposition, b: Proposition) -> Compared
        requires a_lt_count { a.0 < self.now.count }
        requires b_lt_count { b.0 < self.now.count }
        ensures { (tables : ℕ) → result ≡ compared_props (room_at tables self.now.room.now a.0) (room_at tables self.now.room.now b.0) }
    {
        if a == b {
            return Compared::Equal;
        }
        let r = self.at(a);
        let s = self.at(b);
        if r.kind != s.kind {
            return Compared::Apart;
        }
        match r.kind {
            TRUE..=FALSE => Compared::Equal,
            AND..=IMPL => {
                let first = self.compare(Proposition(r.a), Proposition(s.a));
                if let Compared::Apart = first {
                    return first;
                }
                first.and(self.compare(Proposition(r.b), Proposition(s.b)))
            }
            FOR_ALL..=EXISTS => {
                let first = binders(r, s);
                if let Compared::Apart = first {
                    return first;
                }
                first.and(self.compare(Proposition(r.c), Proposition(s.c)))
            }
            ATOM..=255 => atoms(r, s),
        }
    }

    pub fn compare_types(self, s: Sort, t: Sort) -> Compared
        requires type_in { TypeIn self.count s }
        requires type_in_2 { TypeIn self.count t }
        ensures { (tables : ℕ) → result ≡ compared_types (type_at tables self.entry.room.now s) (type_at tables self.entry.room.now t) }
    {
        match (s, t) {
            (Sort::Proposition(a), Sort::Proposition(b)) => self.compare(a, b),
            (Sort::Datatype(d), Sort::Datatype(e)) if d == e => Compared::Equal,
            _ => Compared::Apart,
        }
    }
}
