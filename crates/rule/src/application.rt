// Application, synthesized: of an Impl, to what fits its left part; or of a ForAll, to a known Ident of its datatype, which is put into the body once
// it is checked; else 22 at the function. (Checked, it is compared.)
ghost use Rattle.std.specs.Prelude.{◌≡◌, List, ℕ, ◌+◌, ◌*◌, ◌<◌, ◌≤◌, length};
ghost use Rattle.numbers.specs.Limits.{largest};
ghost use Rattle.numbers.specs.declared.Sort.{Sort};
ghost use Rattle.layout.specs.File.{terms, term_record};
ghost use Rattle.prop.specs.Room.{TypeIn};
ghost use Rattle.step.specs.declared.state.Want.TheVariants.{Check, Synth};
ghost use Rattle.step.specs.Rooms.{Rooms, count_of, rooms};
ghost use Rattle.rules.specs.Prop.{imp};
ghost use Rattle.prop.specs.Head.{Unsplit};
ghost use Rattle.rule.specs.declared.next.Rest.TheVariants.{Argument, Concludes, Instance};
ghost use Rattle.rule.specs.Going.{Here, Room, Begins, Resumes};

use super::next::{Next, Rest, Rule, by, proved};
use arena::make::put_in;
use numbers::refusal::{Reason, Refusal};
use numbers::{Proposition, Serial, Sort, Term};
use prop::head::{Link, Quant};
use step::inference::Inference;
use step::open::object_of;
use step::state::{Answer, State, Want, term_record};

pub fn synthesize(file: &[u8], k: Term, st: State) -> Result<Next, Refusal>
    requires here { Here file.now k.0 × (st.records < largest) }
    requires k_value { (term_record file.now k.0).kind ≡ 5 }
    ensures { (R : Rooms) → Begins file.now R R k.0 Synth st result }
{
    let r = term_record(file, k);
    Ok(Next::Ask(Rest::Argument, r.child1, Want::Synth, st.inner()))
}

pub fn argument(file: &[u8], props: &[u8], work: &[u8], f: Rule, a: Answer) -> Result<Next, Refusal>
    requires here { Here file.now f.term.0 }
    requires room { Room file.now props.now a.state × TypeIn (count_of file.now a.state) a.typ }
    requires context_in_bounds { 8 * a.state.context ≤ length work.now }
    requires term_bound { (term_record file.now f.term.0).child2.0 < terms file.now }
    ensures { (tree goals : List ℕ) → Resumes file.now (rooms tree goals props.now work.now)
        (rooms tree goals props.now work.now) f Argument a.typ a.state result }
{
    let Some(parts) = a.state.held(file, props).split(a.typ, Link::Impl) else {
        return object(file, props, work, f, a);
    };
    let r = term_record(file, f.term);
    let left = Want::Check(Sort::Proposition(parts.left));
    Ok(Next::Ask(Rest::Concludes(parts.right), r.child2, left, a.state))
}

fn object(file: &[u8], props: &[u8], work: &[u8], f: Rule, a: Answer) -> Result<Next, Refusal>
    requires here { Here file.now f.term.0 }
    requires room { Room file.now props.now a.state × TypeIn (count_of file.now a.state) a.typ }
    requires context_in_bounds { 8 * a.state.context ≤ length work.now }
    requires term_bound { (term_record file.now f.term.0).child2.0 < terms file.now }
    requires unsplit { Unsplit imp props.now a.typ }
    ensures { (tree goals : List ℕ) → Resumes file.now (rooms tree goals props.now work.now)
        (rooms tree goals props.now work.now) f Argument a.typ a.state result }
{
    let r = term_record(file, f.term);
    let Some(all) = a.state.held(file, props).over(a.typ, Quant::All) else {
        return Err(Reason::SynthWrongHead.at(r.child1));
    };
    let i = object_of(file, work, f.want, r.child2, a.state)?;
    let d = Want::Check(Sort::Datatype(all.datatype));
    Ok(Next::Ask(Rest::Instance(i, all.body), r.child2, d, a.state))
}

pub fn concludes(tree: &mut [u8], f: Rule, b: Proposition, st: State) -> Result<Next, Refusal>
    requires { 16 * f.start.records + 16 ≤ length tree.old }
    ensures { (l goals ps work : List ℕ) (t : Sort) → Resumes l (rooms tree.old goals ps work)
        (rooms tree.new goals ps work) f (Concludes b) t st result }
{
    by(tree, f, Inference::ImplElim.number(), 2, proved(b, st))
}

pub fn instance(
    file: &[u8],
    tree: &mut [u8],
    props: &mut [u8],
    f: Rule,
    i: Serial,
    body: Proposition,
    st: State,
) -> Result<Next, Refusal>
    requires here { Here file.now f.term.0 }
    requires room { Room file.now props.old st × (body.0 < count_of file.now st) }
    requires records_in_bounds { 16 * f.start.records + 16 ≤ length tree.old }
    ensures { (goals work : List ℕ) (t : Sort) → Resumes file.now (rooms tree.old goals props.old work)
        (rooms tree.new goals props.new work) f (Instance i body) t st result }
{
    let count = st.count(file);
    let Some(m) = put_in(props, count, st.left(), body, i) else {
        return Err(Reason::TooManyMade.at(f.term));
    };
    let whole = proved(m.at, st.grown(count, m.count));
    by(tree, f, Inference::ForAllElim.number(), 2, whole)
}
