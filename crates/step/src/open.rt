// What a rule does between its premises: the expected function type opened, a let opened and closed, the object of a quantifier looked up, a
// function's conclusion made. (Each takes the rooms that it touches, so that its contract says of the others nothing.)
ghost use Rattle.std.specs.Prelude.{◌≡◌, List, ℕ, ◌+◌, ◌*◌, ◌<◌, ◌≤◌, length};
ghost use Rattle.numbers.specs.Limits.{largest};
ghost use Rattle.rules.specs.State.{limit};
ghost use Rattle.layout.specs.File.{terms};
ghost use Rattle.prop.specs.Room.{TypeIn};
ghost use Rattle.table.specs.Passing.{Counted};
ghost use Rattle.context.specs.Context.{context_room, most_entries};
ghost use Rattle.step.specs.Rooms.{count_of, Loaded, Table, most_serials};
ghost use Rattle.step.specs.Steps.{OpenedAs, ObjectAs, EnteredAs, ClosedAs, AbstractedAs};

use super::enter::enter_fresh;
use super::inference::Inference;
use super::state::{State, Want, term_record};
use arena::make::{make_forall, make_impl, put_in};
use context::identifier_context::get_by_name;
use layout::record::TermRecord;
use numbers::refusal::{Reason, Refusal};
use numbers::{Name, Proposition, Serial, Sort, Term};
use prop::head::{Link, Quant};

// A function's type opened: the rule, the parameter's type, the body's proposition, and the counts after that.
#[derive(Clone, Copy)]
pub struct Opening {
    pub rule: Inference,
    pub parameter: Sort,
    pub body: Proposition,
    pub state: State,
}

// What a synthesized function concludes: the rule, the proposition, and the counts after that.
#[derive(Clone, Copy)]
pub struct Abstraction {
    pub rule: Inference,
    pub whole: Proposition,
    pub state: State,
}

// The rule, the parameter's type and the body's proposition of the function k that is to have the wanted type; serial i is its identifier's.
pub fn open_function(
    file: &[u8],
    props: &mut [u8],
    k: Term,
    wanted: Sort,
    i: Serial,
    st: State,
) -> Result<Opening, Refusal>
    requires counted { Counted file.now }
    requires loaded { Loaded file.now props.old (count_of file.now st) }
    requires type_in { TypeIn (count_of file.now st) wanted × (st.made ≤ limit) }
    ensures { OpenedAs file.now props.old props.new k.0 wanted i.0 st result }
{
    let held = st.held(file, props);
    if let Some(parts) = held.split(wanted, Link::Impl) {
        return Ok(Opening {
            rule: Inference::ImplIntro,
            parameter: Sort::Proposition(parts.left),
            body: parts.right,
            state: st,
        });
    }
    let Some(all) = held.over(wanted, Quant::All) else {
        return Err(Reason::CheckWrongTerm.at(k));
    };
    let count = held.count;
    let body = put_in(props, count, st.left(), all.body, i).ok_or(Reason::TooManyMade.at(k))?;
    Ok(Opening {
        rule: Inference::ForAllIntro,
        parameter: Sort::Datatype(all.datatype),
        body: body.at,
        state: st.grown(count, body.count),
    })
}

// The serial of the object that term t names: an Ident, else 13 / 24, of a known name, else 10 / 20.
pub fn object_of(file: &[u8], work: &[u8], w: Want, t: Term, st: State) -> Result<Serial, Refusal>
    requires table { Table file.now }
    requires t_bound { t.0 < terms file.now }
    requires context_in_bounds { 8 * st.context ≤ length work.now }
    ensures { (ps : List ℕ) → ObjectAs file.now ps work.now w t.0 st result }
{
    let r = term_record(file, t);
    // 0 is Ident: the kind byte, as in document 01's form.
    if r.kind != 0 {
        let why = w.either(Reason::CheckNoObject, Reason::SynthNoProposition);
        return Err(why.at(t));
    }
    let Some(e) = get_by_name(work, usize::from(st.context), r.name1) else {
        let why = w.either(Reason::CheckUnknownName, Reason::SynthUnknownName);
        return Err(why.at(t));
    };
    Ok(e.serial)
}

// A let at term k, whose head is of type t: an Exists, else 12 / 22 at the head; two identifiers, the Exists' body with the first put in, and an
// entry for each.
pub fn open_let(
    file: &[u8],
    props: &mut [u8],
    work: &mut [u8],
    k: Term,
    w: Want,
    r: TermRecord,
    t: Sort,
    st: State,
) -> Result<State, Refusal>
    requires counted { Counted file.now }
    requires loaded { Loaded file.now props.old (count_of file.now st) }
    requires type_in { TypeIn (count_of file.now st) t × (st.made ≤ limit) }
    requires context_bound { (st.context + 2 ≤ most_entries) × (context_room ≤ length work.old) × (st.serials + 2 ≤ most_serials) }
    ensures { EnteredAs file.now props.old work.old props.new work.new r.name1.0
        r.name2.0 w t k.0 r.child1.0 st result }
{
    let held = st.held(file, props);
    let Some(ex) = held.over(t, Quant::Ex) else {
        let why = w.either(Reason::CheckWrongHead, Reason::SynthWrongHead);
        return Err(why.at(r.child1));
    };
    let count = held.count;
    let i = Serial(st.serials);
    let body = put_in(props, count, st.left(), ex.body, i).ok_or(Reason::TooManyMade.at(k))?;
    let s = st.grown(count, body.count);
    let one = enter_fresh(work, s, r.name1, Sort::Datatype(ex.datatype));
    Ok(enter_fresh(work, one, r.name2, Sort::Proposition(body.at)))
}

// What a let answers, whose body is term `body`: a proposition, else 13 / 24, without its witness, else 16 / 27.
pub fn close_let(
    file: &[u8],
    props: &[u8],
    body: Term,
    w: Want,
    t: Sort,
    witness: Serial,
    st: State,
) -> Result<(), Refusal>
    requires counted { Counted file.now }
    requires loaded { Loaded file.now props.now (count_of file.now st) }
    requires type_in { TypeIn (count_of file.now st) t × (st.made ≤ limit) }
    ensures { ClosedAs file.now props.now w body.0 witness.0 t st result }
{
    let Sort::Proposition(n) = t else {
        let why = w.either(Reason::CheckNoObject, Reason::SynthNoProposition);
        return Err(why.at(body));
    };
    if st.held(file, props).holds(n, witness) {
        let why = w.either(Reason::CheckWitnessEscapes, Reason::SynthWitnessEscapes);
        Err(why.at(body))
    } else {
        Ok(())
    }
}

// What the synthesized function k concludes: an Impl, or a ForAll that bears the parameter's name.
pub fn abstract_over(
    file: &[u8],
    props: &mut [u8],
    k: Term,
    x: Name,
    i: Serial,
    t: Sort,
    b: Proposition,
    st: State,
) -> Result<Abstraction, Refusal>
    requires counted { Counted file.now }
    requires loaded { Loaded file.now props.old (count_of file.now st) }
    requires type_in { TypeIn (count_of file.now st) t × (b.0 < count_of file.now st) × (st.made ≤ limit) }
    ensures { AbstractedAs file.now props.old props.new k.0 x.0 i.0 t b.0 st result }
{
    let count = st.count(file);
    let left = st.left();
    let (rule, made) = match t {
        Sort::Proposition(a) => (Inference::ImplIntro, make_impl(props, count, left, a, b)),
        Sort::Datatype(d) => (
            Inference::ForAllIntro,
            make_forall(props, count, left, x, d, i, b),
        ),
    };
    let made = made.ok_or(Reason::TooManyMade.at(k))?;
    Ok(Abstraction {
        rule,
        whole: made.at,
        state: st.grown(count, made.count),
    })
}
