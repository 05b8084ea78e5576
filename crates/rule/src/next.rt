// A rule's program cut at its premises, and how a rule ends.
ghost use Rattle.std.specs.Prelude.{◌≡◌, List, ℕ, ◌+◌, ◌*◌, ◌≤◌, length};
ghost use Rattle.numbers.specs.declared.Sort.TheVariants as sort;
ghost use Rattle.step.specs.Modes.{answer_of};
ghost use Rattle.step.specs.Rooms.{rooms};
ghost use Rattle.rule.specs.declared.next.Rest.TheVariants.{By};
ghost use Rattle.rule.specs.Going.{Resumes};

use numbers::refusal::Refusal;
use numbers::{Proposition, Serial, Sort, Term};
use step::node::{node_record, put_node};
use step::state::{Answer, State, Want};

// A rule under way: its term, what is wanted of it, and the counts at its start.
#[derive(Clone, Copy)]
pub struct Rule {
    pub term: Term,
    pub want: Want,
    pub start: State,
}

impl Rule {
    // Its answer, where this was found.
    pub(crate) fn answered(self, found: Answer) -> Answer
        ensures { result ≡ record { typ = answer_of self.want found.typ; state = found.state } }
    {
        Answer {
            typ: self.want.answered(found.typ),
            ..found
        }
    }
}

// What is left of a rule after a premise. (A rule's number is any number here, and no `Inference`: what `goes` of `Resumes` says
// holds of all. That a piece asks with the number of a rule, `names` of `Begins` and `Resumes` says.)
#[derive(Clone, Copy)]
pub enum Rest {
    // One node, of what is answered: the rule's number, and how many premises it had.
    By(u8, u16),
    // Pair, checked: the right part, held to this; then one node, by this rule.
    Right(u8, Proposition),
    // Pair, synthesized: the right part; then both types, of which this is the left's.
    Second,
    Both(Sort),
    // A projection: the part of what was found.
    Part,
    // Function, checked: one node, by this rule, with this serial.
    Closes(u8, Serial),
    // Function, synthesized: its conclusion, from the parameter's serial and type.
    Abstracts(Serial, Sort),
    // Application: the argument; then what an Impl concludes, or the body of a ForAll with this object in it.
    Argument,
    Concludes(Proposition),
    Instance(Serial, Proposition),
    // LetIn: the body, then the end, with the two serials.
    LetBody,
    LetEnd(Serial, Serial),
    // Case: the left arm; the right arm, whose hypothesis is this; the end, with the two serials and the left arm's type.
    CaseLeft,
    CaseRight(Serial, Proposition),
    CaseEnd(Serial, Serial, Sort),
    // Abort: the test for a datatype.
    Aborts,
}

// What a rule comes to, unless it is refused: it asks for a premise, and this is then left of it; a subterm is held to a type in its place; it is done.
#[derive(Clone, Copy)]
pub enum Next {
    Ask(Rest, Term, Want, State),
    Instead(Term, Sort, State),
    Done(Answer),
}

// The answer that proposition b is proved.
pub(crate) fn proved(b: Proposition, state: State) -> Answer
    ensures { result ≡ record { typ = sort.Proposition b; state = state } }
{
    Answer {
        typ: Sort::Proposition(b),
        state,
    }
}

// The end of a rule without serials of its own: its node, of what it answers, above so many premises.
pub fn by(tree: &mut [u8], f: Rule, rule: u8, premises: u16, a: Answer) -> Result<Next, Refusal>
    requires { 16 * f.start.records + 16 ≤ length tree.old }
    ensures { (l goals ps work : List ℕ) → Resumes l (rooms tree.old goals ps work) (rooms tree.new goals ps work) f
        (By rule premises) a.typ a.state result }
{
    let done = f.answered(a);
    let top = node_record(rule, f.term, done.typ, Serial::NONE, Serial::NONE, premises);
    put_node(tree, f.start.records, top);
    Ok(Next::Done(done))
}
