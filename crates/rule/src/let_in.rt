// LetIn, in either mode: the head is an Exists, else 12 / 22 at the head; two serials, two entries, the body; what the body answers is a proposition
// (13 / 24) that does not hold the witness (16 / 27).
ghost use Rattle.std.specs.Prelude.{◌≡◌, List, ℕ, ◌+◌, ◌*◌, ◌<◌, ◌≤◌, length};
ghost use Rattle.numbers.specs.Limits.{largest};
ghost use Rattle.layout.specs.File.{term_record};
ghost use Rattle.prop.specs.Room.{TypeIn};
ghost use Rattle.step.specs.declared.state.Want.TheVariants.{Synth};
ghost use Rattle.step.specs.Rooms.{Rooms, count_of, rooms};
ghost use Rattle.step.specs.Modes.{WantIn};
ghost use Rattle.rule.specs.declared.next.Rest.TheVariants.{LetBody, LetEnd};
ghost use Rattle.rule.specs.Going.{Here, Room, FreshTwo, Begins, Resumes};

use super::next::{Next, Rest, Rule};
use numbers::refusal::Refusal;
use numbers::{Serial, Term};
use step::inference::Inference;
use step::node::{node, put_node};
use step::open::{close_let, open_let};
use step::state::{Answer, State, Want, term_record};

pub fn begin(file: &[u8], k: Term, w: Want, st: State) -> Result<Next, Refusal>
    requires here { Here file.now k.0 × (st.records < largest) }
    requires want_in { WantIn (count_of file.now st) w }
    requires k_value { (term_record file.now k.0).kind ≡ 6 }
    ensures { (R : Rooms) → Begins file.now R R k.0 w st result }
{
    let r = term_record(file, k);
    Ok(Next::Ask(Rest::LetBody, r.child1, Want::Synth, st.inner()))
}

pub fn body(
    file: &[u8],
    props: &mut [u8],
    work: &mut [u8],
    f: Rule,
    a: Answer,
) -> Result<Next, Refusal>
    requires here { Here file.now f.term.0 }
    requires room { Room file.now props.old a.state × TypeIn (count_of file.now a.state) a.typ }
    requires fresh_two { FreshTwo work.old a.state }
    ensures { (tree goals : List ℕ) → Resumes file.now (rooms tree goals props.old work.old)
        (rooms tree goals props.new work.new) f LetBody a.typ a.state result }
{
    let r = term_record(file, f.term);
    let s = open_let(file, props, work, f.term, f.want, r, a.typ, a.state)?;
    let i = Serial(a.state.serials);
    let j = Serial(a.state.serials + 1);
    Ok(Next::Ask(Rest::LetEnd(i, j), r.child2, f.want, s))
}

pub fn end(
    file: &[u8],
    tree: &mut [u8],
    props: &[u8],
    f: Rule,
    i: Serial,
    j: Serial,
    a: Answer,
) -> Result<Next, Refusal>
    requires here { Here file.now f.term.0 }
    requires room { Room file.now props.now a.state × TypeIn (count_of file.now a.state) a.typ }
    requires records_in_bounds { 16 * f.start.records + 16 ≤ length tree.old }
    ensures { (goals work : List ℕ) → Resumes file.now (rooms tree.old goals props.now work)
        (rooms tree.new goals props.now work) f (LetEnd i j) a.typ a.state result }
{
    let r = term_record(file, f.term);
    close_let(file, props, r.child2, f.want, a.typ, i, a.state)?;
    let top = node(Inference::ExistsElim, f.term, a.typ, i, j, 2);
    put_node(tree, f.start.records, top);
    Ok(Next::Done(f.answered(a)))
}
