// Case, in either mode: the head is an Or, else 12 / 22 at the head; a serial, an entry and an arm, twice. The right arm does not have the left's
// hypothesis. Synthesized arms are alpha-equal, else 26; what they have is no datatype (13 / 24). It concludes the left arm's wording and answers the
// right's.
ghost use Rattle.std.specs.Prelude.{◌≡◌, List, ℕ, ◌+◌, ◌*◌, ◌<◌, ◌≤◌, length};
ghost use Rattle.numbers.specs.Limits.{largest};
ghost use Rattle.layout.specs.File.{term_record};
ghost use Rattle.prop.specs.Room.{TypeIn};
ghost use Rattle.step.specs.declared.state.Want.TheVariants.{Check, Synth};
ghost use Rattle.step.specs.Rooms.{Table, Rooms, count_of, rooms};
ghost use Rattle.step.specs.Modes.{WantIn};
ghost use Rattle.rule.specs.declared.next.Rest.TheVariants.{CaseLeft, CaseRight, CaseEnd};
ghost use Rattle.rule.specs.Going.{Here, Room, Fresh, Begins, Resumes, ArmsAs};

use super::next::{Next, Rest, Rule};
use numbers::refusal::{Reason, Refusal};
use numbers::{Proposition, Serial, Sort, Term};
use prop::head::Link;
use step::enter::enter_fresh;
use step::inference::Inference;
use step::node::{node, put_node};
use step::state::{Answer, State, Want, term_record};

pub fn begin(file: &[u8], k: Term, w: Want, st: State) -> Result<Next, Refusal>
    requires here { Here file.now k.0 × (st.records < largest) }
    requires want_in { WantIn (count_of file.now st) w }
    requires k_value { (term_record file.now k.0).kind ≡ 9 }
    ensures { (R : Rooms) → Begins file.now R R k.0 w st result }
{
    let r = term_record(file, k);
    Ok(Next::Ask(Rest::CaseLeft, r.child1, Want::Synth, st.inner()))
}

pub fn left(file: &[u8], props: &[u8], work: &mut [u8], f: Rule, a: Answer) -> Result<Next, Refusal>
    requires here { Here file.now f.term.0 }
    requires room { Room file.now props.now a.state × TypeIn (count_of file.now a.state) a.typ }
    requires fresh { Fresh work.old a.state }
    ensures { (tree goals : List ℕ) → Resumes file.now (rooms tree goals props.now work.old)
        (rooms tree goals props.now work.new) f CaseLeft a.typ a.state result }
{
    let w = f.want;
    let r = term_record(file, f.term);
    let Some(parts) = a.state.held(file, props).split(a.typ, Link::Or) else {
        let why = w.either(Reason::CheckWrongHead, Reason::SynthWrongHead);
        return Err(why.at(r.child1));
    };
    let s = enter_fresh(work, a.state, r.name1, Sort::Proposition(parts.left));
    let rest = Rest::CaseRight(Serial(a.state.serials), parts.right);
    Ok(Next::Ask(rest, r.child2, w, s))
}

pub fn right(
    file: &[u8],
    work: &mut [u8],
    f: Rule,
    i: Serial,
    b: Proposition,
    a: Answer,
) -> Result<Next, Refusal>
    requires here { Here file.now f.term.0 }
    requires fresh { Fresh work.old a.state }
    ensures { (tree goals ps : List ℕ) → Resumes file.now (rooms tree goals ps work.old)
        (rooms tree goals ps work.new) f (CaseRight i b) a.typ a.state result }
{
    let r = term_record(file, f.term);
    let s = enter_fresh(work, a.state, r.name2, Sort::Proposition(b));
    let rest = Rest::CaseEnd(i, Serial(a.state.serials), a.typ);
    Ok(Next::Ask(rest, r.child3, f.want, s))
}

pub fn end(
    file: &[u8],
    tree: &mut [u8],
    props: &[u8],
    f: Rule,
    i: Serial,
    j: Serial,
    t: Sort,
    a: Answer,
) -> Result<Next, Refusal>
    requires here { Here file.now f.term.0 }
    requires room { Room file.now props.now a.state × TypeIn (count_of file.now a.state) t × TypeIn (count_of file.now a.state) a.typ }
    requires records_in_bounds { 16 * f.start.records + 16 ≤ length tree.old }
    ensures { (goals work : List ℕ) → Resumes file.now (rooms tree.old goals props.now work)
        (rooms tree.new goals props.now work) f (CaseEnd i j t) a.typ a.state result }
{
    let w = f.want;
    if !arms_agree(file, props, w, t, a) {
        return Err(Reason::SynthArmsDiffer.at(f.term));
    }
    let Sort::Proposition(_) = t else {
        let why = w.either(Reason::CheckNoObject, Reason::SynthNoProposition);
        return Err(why.at(f.term));
    };
    let top = node(Inference::OrElim, f.term, t, i, j, 3);
    put_node(tree, f.start.records, top);
    Ok(Next::Done(f.answered(a)))
}

// In a check both arms have what is wanted.
fn arms_agree(file: &[u8], props: &[u8], w: Want, t: Sort, a: Answer) -> bool
    requires table { Table file.now }
    requires room { Room file.now props.now a.state × TypeIn (count_of file.now a.state) t × TypeIn (count_of file.now a.state) a.typ }
    ensures { ArmsAs file.now props.now w t a.typ result }
{
    match w {
        Want::Check(_) => true,
        Want::Synth => a.state.held(file, props).compare_types(t, a.typ).is_alpha(),
    }
}
