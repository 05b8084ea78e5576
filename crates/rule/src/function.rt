// Function. Checked: its serial; the wanted Impl or ForAll, else 11; the annotation; the body, whose entry has the wanted type. Synthesized: the
// annotation, else 21; its serial; the body, which is no datatype (24); then an Impl or a ForAll is made.
ghost use Rattle.std.specs.Prelude.{◌≡◌, List, ℕ, ◌+◌, ◌*◌, ◌<◌, ◌≤◌, length};
ghost use Rattle.numbers.specs.Limits.{largest};
ghost use Rattle.layout.specs.File.{term_record};
ghost use Rattle.prop.specs.Room.{TypeIn};
ghost use Rattle.step.specs.declared.state.Want.TheVariants.{Check, Synth};
ghost use Rattle.step.specs.Rooms.{count_of, rooms};
ghost use Rattle.rule.specs.declared.next.Rest.TheVariants.{Closes, Abstracts};
ghost use Rattle.rule.specs.Going.{Here, Room, Begun, Begins, Resumes};

use super::next::{Next, Rest, Rule, proved};
use numbers::refusal::{Reason, Refusal};
use numbers::{Serial, Sort, Term};
use step::enter::{enter, enter_fresh};
use step::node::{node_record, put_node};
use step::open::{abstract_over, open_function};
use step::state::{Answer, State, Want, term_record};
use step::typing::{agree, annotation_of, resolve_type};

pub fn check(
    file: &[u8],
    props: &mut [u8],
    work: &mut [u8],
    k: Term,
    wanted: Sort,
    st: State,
) -> Result<Next, Refusal>
    requires begun { Begun file.now props.old work.old k.0 st }
    requires type_in { TypeIn (count_of file.now st) wanted }
    requires k_value { (term_record file.now k.0).kind ≡ 4 }
    ensures { (tree goals : List ℕ) → Begins file.now (rooms tree goals props.old work.old)
        (rooms tree goals props.new work.new) k.0 (Check wanted) st result }
{
    let r = term_record(file, k);
    let made = st.inner().new_identifier(r.name1);
    let id = made.identifier;
    let i = id.serial;
    let o = open_function(file, props, k, wanted, i, made.state)?;
    let s = agree(file, props, work, k, annotation_of(r), o.parameter, o.state)?;
    let entered = enter(work, s, id, o.parameter);
    let body = Want::Check(Sort::Proposition(o.body));
    Ok(Next::Ask(Rest::Closes(o.rule.number(), i), r.child1, body, entered))
}

pub fn closes(tree: &mut [u8], f: Rule, rule: u8, i: Serial, a: Answer) -> Result<Next, Refusal>
    requires { 16 * f.start.records + 16 ≤ length tree.old }
    ensures { (l goals ps work : List ℕ) → Resumes l (rooms tree.old goals ps work) (rooms tree.new goals ps work) f
        (Closes rule i) a.typ a.state result }
{
    let done = f.answered(a);
    let top = node_record(rule, f.term, done.typ, i, Serial::NONE, 1);
    put_node(tree, f.start.records, top);
    Ok(Next::Done(done))
}

pub fn synthesize(
    file: &[u8],
    props: &mut [u8],
    work: &mut [u8],
    k: Term,
    st: State,
) -> Result<Next, Refusal>
    requires begun { Begun file.now props.old work.old k.0 st }
    requires k_value { (term_record file.now k.0).kind ≡ 4 }
    ensures { (tree goals : List ℕ) → Begins file.now (rooms tree goals props.old work.old)
        (rooms tree goals props.new work.new) k.0 Synth st result }
{
    let r = term_record(file, k);
    let Some(t) = annotation_of(r) else {
        return Err(Reason::SynthNoAnnotation.at(k));
    };
    let a = resolve_type(file, props, work, k, Want::Synth, t, st)?;
    let i = Serial(a.state.serials);
    let entered = enter_fresh(work, a.state.inner(), r.name1, a.typ);
    Ok(Next::Ask(Rest::Abstracts(i, a.typ), r.child1, Want::Synth, entered))
}

pub fn abstracts(
    file: &[u8],
    tree: &mut [u8],
    props: &mut [u8],
    f: Rule,
    i: Serial,
    t: Sort,
    a: Answer,
) -> Result<Next, Refusal>
    requires here { Here file.now f.term.0 }
    requires room { Room file.now props.old a.state × TypeIn (count_of file.now a.state) t × TypeIn (count_of file.now a.state) a.typ }
    requires records_in_bounds { 16 * f.start.records + 16 ≤ length tree.old }
    ensures { (goals work : List ℕ) → Resumes file.now (rooms tree.old goals props.old work)
        (rooms tree.new goals props.new work) f (Abstracts i t) a.typ a.state result }
{
    let k = f.term;
    let r = term_record(file, k);
    let Sort::Proposition(b) = a.typ else {
        return Err(Reason::SynthNoProposition.at(r.child1));
    };
    let o = abstract_over(file, props, k, r.name1, i, t, b, a.state)?;
    closes(tree, f, o.rule.number(), i, proved(o.whole, o.state))
}
