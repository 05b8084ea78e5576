// A type taken apart at its head, as the rules ask: the two parts of And, Or and Impl, the datatype and the body of ForAll and Exists; or it is no such one.
ghost use Rattle.std.specs.Prelude.{◌≡◌, true, cond, ℕ};
ghost use Rattle.rules.specs.Prop.{const, made, prop, eq};
ghost use Rattle.layout.specs.File.{linked, quantified, prop_kind};
ghost use Rattle.prop.specs.Room.{type_at, TypeIn};
ghost use Rattle.prop.specs.Head.{link_of, quant_of, SplitAs, OverAs};

use super::node::{AND, EXISTS, FOR_ALL, IMPL, OR, TRUE};
use super::propositions::Propositions;
use numbers::{Name, Proposition, Sort};

// What joins two propositions.
#[derive(Clone, Copy)]
pub enum Link {
    And,
    Or,
    Impl,
}

impl Link {
    // (A match: the kinds are the constants of `node`.)
    #[tactic(auto, unfolding(layout::specs::File::prop_kind, layout::specs::File::prop_kinds))]
    pub fn kind(self) -> u8
        ensures { prop_kind result ≡ linked (link_of self) }
    {
        match self {
            Link::And => AND,
            Link::Or => OR,
            Link::Impl => IMPL,
        }
    }
}

// What binds in one.
#[derive(Clone, Copy)]
pub enum Quant {
    All,
    Ex,
}

impl Quant {
    // (A match, as for `Link`.)
    #[tactic(auto, unfolding(layout::specs::File::prop_kind, layout::specs::File::prop_kinds))]
    fn kind(self) -> u8
        ensures { prop_kind result ≡ quantified (quant_of self) }
    {
        match self {
            Quant::All => FOR_ALL,
            Quant::Ex => EXISTS,
        }
    }
}

// The two parts of a link.
#[derive(Clone, Copy)]
pub struct Parts {
    pub left: Proposition,
    pub right: Proposition,
}

// A quantifier's datatype and body. (No rule asks for the object's name.)
#[derive(Clone, Copy)]
pub struct Bound {
    pub datatype: Name,
    pub body: Proposition,
}

impl Propositions<'_> {
    // The parts, where the head is that link.
    pub fn split(self, t: Sort, l: Link) -> Option<Parts>
        requires { TypeIn self.count t }
        ensures { SplitAs (link_of l) self.entry.room.now self.entry.count t result }
    {
        let Sort::Proposition(n) = t else {
            return None;
        };
        let r = self.at(n);
        if r.kind == l.kind() {
            let left = Proposition(r.a);
            let right = Proposition(r.b);
            Some(Parts { left, right })
        } else {
            None
        }
    }

    // The datatype and the body, where the head is that quantifier. (This and `split` differ in what they answer.)
    pub fn over(self, t: Sort, q: Quant) -> Option<Bound>
        requires { TypeIn self.count t }
        ensures { OverAs (quant_of q) self.entry.room.now self.entry.count t result }
    {
        let Sort::Proposition(n) = t else {
            return None;
        };
        let r = self.at(n);
        if r.kind == q.kind() {
            let datatype = Name(r.b);
            let body = Proposition(r.c);
            Some(Bound { datatype, body })
        } else {
            None
        }
    }

    // Equal to True, as Unit asks.
    pub fn is_truth(self, t: Sort) -> bool
        requires { TypeIn self.count t }
        ensures { (tables : ℕ) → result ≡ eq (type_at tables self.entry.room.now t) (prop (const made true)) }
    {
        let Sort::Proposition(n) = t else {
            return false;
        };
        let r = self.at(n);
        r.kind == TRUE
    }
}

// Of two parts, the first or the second.
pub fn part(first: bool, a: Proposition, b: Proposition) -> Proposition
    ensures { result ≡ cond first a b }
{
    if first { a } else { b }
}
