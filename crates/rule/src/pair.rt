// Pair. Checked: against an And, part by part; against an Exists, whose witness is a known Ident, which is put into the body before it is checked
// itself; else 11. Synthesized: both parts; neither may be a datatype, the second is tested first (23, 25); their And is made.
ghost use Rattle.std.specs.Prelude.{◌≡◌, List, ℕ, ◌+◌, ◌*◌, ◌<◌, ◌≤◌, length};
ghost use Rattle.numbers.specs.Limits.{largest};
ghost use Rattle.numbers.specs.declared.Sort.{Sort};
ghost use Rattle.layout.specs.File.{term_record};
ghost use Rattle.prop.specs.Room.{TypeIn};
ghost use Rattle.step.specs.declared.state.Want.TheVariants.{Check, Synth};
ghost use Rattle.step.specs.Rooms.{Rooms, count_of, rooms};
ghost use Rattle.rules.specs.Prop.{and};
ghost use Rattle.prop.specs.Head.{Unsplit};
ghost use Rattle.rule.specs.declared.next.Rest.TheVariants.{Right, Second, Both};
ghost use Rattle.rule.specs.Going.{Here, Room, Begins, Resumes};

use super::next::{Next, Rest, Rule, by, proved};
use arena::make::{make_and, put_in};
use numbers::refusal::{Reason, Refusal};
use numbers::{Proposition, Sort, Term};
use prop::head::{Link, Quant};
use step::inference::Inference;
use step::open::object_of;
use step::state::{Answer, State, Want, term_record};

pub fn check(
    file: &[u8],
    props: &mut [u8],
    work: &[u8],
    k: Term,
    wanted: Sort,
    st: State,
) -> Result<Next, Refusal>
    requires here { Here file.now k.0 × (st.records < largest) }
    requires room { Room file.now props.old st × TypeIn (count_of file.now st) wanted }
    requires context_in_bounds { 8 * st.context ≤ length work.now }
    requires k_value { (term_record file.now k.0).kind ≡ 1 }
    ensures { (tree goals : List ℕ) → Begins file.now (rooms tree goals props.old work.now)
        (rooms tree goals props.new work.now) k.0 (Check wanted) st result }
{
    let Some(parts) = st.held(file, props).split(wanted, Link::And) else {
        return exists(file, props, work, k, wanted, st);
    };
    let r = term_record(file, k);
    let left = Want::Check(Sort::Proposition(parts.left));
    let rest = Rest::Right(Inference::AndIntro.number(), parts.right);
    Ok(Next::Ask(rest, r.child1, left, st.inner()))
}

fn exists(
    file: &[u8],
    props: &mut [u8],
    work: &[u8],
    k: Term,
    wanted: Sort,
    st: State,
) -> Result<Next, Refusal>
    requires here { Here file.now k.0 × (st.records < largest) }
    requires room { Room file.now props.old st × TypeIn (count_of file.now st) wanted }
    requires context_in_bounds { 8 * st.context ≤ length work.now }
    requires k_value { (term_record file.now k.0).kind ≡ 1 }
    requires unsplit { Unsplit and props.old wanted }
    ensures { (tree goals : List ℕ) → Begins file.now (rooms tree goals props.old work.now)
        (rooms tree goals props.new work.now) k.0 (Check wanted) st result }
{
    let held = st.held(file, props);
    let Some(ex) = held.over(wanted, Quant::Ex) else {
        return Err(Reason::CheckWrongTerm.at(k));
    };
    let count = held.count;
    let r = term_record(file, k);
    let w = Want::Check(wanted);
    let i = object_of(file, work, w, r.child1, st)?;
    let Some(m) = put_in(props, count, st.left(), ex.body, i) else {
        return Err(Reason::TooManyMade.at(k));
    };
    let s = st.grown(count, m.count).inner();
    let witness = Want::Check(Sort::Datatype(ex.datatype));
    let rest = Rest::Right(Inference::ExistsIntro.number(), m.at);
    Ok(Next::Ask(rest, r.child1, witness, s))
}

pub fn right(file: &[u8], f: Rule, rule: u8, b: Proposition, st: State) -> Result<Next, Refusal>
    requires { Here file.now f.term.0 }
    ensures { (R : Rooms) (t : Sort) → Resumes file.now R R f (Right rule b) t st result }
{
    let r = term_record(file, f.term);
    let held = Want::Check(Sort::Proposition(b));
    Ok(Next::Ask(Rest::By(rule, 2), r.child2, held, st))
}

pub fn synthesize(file: &[u8], k: Term, st: State) -> Result<Next, Refusal>
    requires here { Here file.now k.0 × (st.records < largest) }
    requires k_value { (term_record file.now k.0).kind ≡ 1 }
    ensures { (R : Rooms) → Begins file.now R R k.0 Synth st result }
{
    let r = term_record(file, k);
    Ok(Next::Ask(Rest::Second, r.child1, Want::Synth, st.inner()))
}

pub fn second(file: &[u8], f: Rule, a: Answer) -> Result<Next, Refusal>
    requires { Here file.now f.term.0 }
    ensures { (R : Rooms) → Resumes file.now R R f Second a.typ a.state result }
{
    let r = term_record(file, f.term);
    Ok(Next::Ask(Rest::Both(a.typ), r.child2, Want::Synth, a.state))
}

pub fn both(
    file: &[u8],
    tree: &mut [u8],
    props: &mut [u8],
    f: Rule,
    t: Sort,
    a: Answer,
) -> Result<Next, Refusal>
    requires here { Here file.now f.term.0 }
    requires room { Room file.now props.old a.state × TypeIn (count_of file.now a.state) t × TypeIn (count_of file.now a.state) a.typ }
    requires records_in_bounds { 16 * f.start.records + 16 ≤ length tree.old }
    ensures { (goals work : List ℕ) → Resumes file.now (rooms tree.old goals props.old work)
        (rooms tree.new goals props.new work) f (Both t) a.typ a.state result }
{
    let k = f.term;
    let Sort::Proposition(b) = a.typ else {
        return Err(Reason::SynthPairOfObject.at(k));
    };
    let Sort::Proposition(p) = t else {
        return Err(Reason::SynthNoType.at(k));
    };
    let count = a.state.count(file);
    let Some(m) = make_and(props, count, a.state.left(), p, b) else {
        return Err(Reason::TooManyMade.at(k));
    };
    let whole = proved(m.at, a.state.grown(count, m.count));
    by(tree, f, Inference::AndIntro.number(), 2, whole)
}
