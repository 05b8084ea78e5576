// An acceptance: its counts, tree records and goals, a line each. `{}` writes the short form, which is document 01's; `{:#}` writes the whole one, which
// says in each line what the record concludes or the goal wants, too, and ends with the other counts.
use super::proposition::format_proposition;
use numbers::{Serial, Sort};
use std::fmt;
use step::node::{NodeRecord, goal_at, node_at};

// The rooms that a run left, and how many records, open goals, serials and propositions it made.
#[derive(Clone, Copy)]
pub struct Accepted<'a> {
    pub tree: &'a [u8],
    pub goals: &'a [u8],
    pub props: &'a [u8],
    pub records: u16,
    pub open: u16,
    pub serials: u16,
    pub made: u16,
}

impl fmt::Display for Accepted<'_> {
    fn fmt<W: fmt::Write>(&self, f: &mut fmt::Formatter<W>) -> fmt::Result {
        writeln!(f, "accepted {} {}", self.records, self.open)?;
        for i in 0..self.records {
            self.node(f, i)?;
        }
        for i in 0..self.open {
            self.goal(f, i)?;
        }
        if f.alternate() {
            writeln!(f, "counts serials {} made {}", self.serials, self.made)?;
        }
        Ok(())
    }
}

impl Accepted<'_> {
    // Record i of the tree, if the room reaches so far: rule, term, both serials, premises.
    fn node<W: fmt::Write>(&self, f: &mut fmt::Formatter<W>, i: u16) -> fmt::Result {
        if self.tree.len() < 16 * usize::from(i) + 16 {
            return Ok(());
        }
        let r = node_at(self.tree, i);
        let (first, second) = (Spelled(r.first), Spelled(r.second));
        write!(f, "{} {} {first} {second} {}", r.rule, r.term.0, r.premises)?;
        if f.alternate() {
            self.conclusion(f, r)?;
        }
        writeln!(f)
    }

    // What a record concludes: a proposition, or that its identifier is of a datatype.
    fn conclusion<W: fmt::Write>(&self, f: &mut fmt::Formatter<W>, r: NodeRecord) -> fmt::Result {
        write!(f, " | ")?;
        match r.conclusion {
            Sort::Proposition(p) => format_proposition(f, self.props, p.0),
            Sort::Datatype(d) => write!(f, "s{} : n{}", r.first.0, d.0),
        }
    }

    // Goal i, if the room reaches so far: term and context length.
    fn goal<W: fmt::Write>(&self, f: &mut fmt::Formatter<W>, i: u16) -> fmt::Result {
        if self.goals.len() < 8 * usize::from(i) + 8 {
            return Ok(());
        }
        let g = goal_at(self.goals, i);
        write!(f, "goal {} {}", g.term.0, g.context)?;
        if f.alternate() {
            write!(f, " | ")?;
            format_proposition(f, self.props, g.proposition.0)?;
        }
        writeln!(f)
    }
}

// A serial, or a dash where there is none.
#[derive(Clone, Copy)]
struct Spelled(Serial);

impl fmt::Display for Spelled {
    fn fmt<W: fmt::Write>(&self, f: &mut fmt::Formatter<W>) -> fmt::Result {
        if self.0 == Serial::NONE {
            return write!(f, "-");
        }
        let Serial(i) = self.0;
        write!(f, "{i}")
    }
}
