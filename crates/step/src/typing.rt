// Annotations: read, resolved, and held against what is expected. (Each function takes the rooms that it touches, and no others.)
ghost use Rattle.std.specs.Prelude.{◌≡◌, ◌+◌, ◌*◌, ◌<◌, ◌≤◌, length};
ghost use Rattle.rules.specs.State.{limit};
ghost use Rattle.prop.specs.Room.{TypeIn};
ghost use Rattle.table.specs.Passing.{Counted};
ghost use Rattle.step.specs.Rooms.{count_of, Loaded};
ghost use Rattle.step.specs.Steps.{annotation_of, AnnotationIn, ResolvingAs, AgreedAs};

use super::state::{State, Want};
use arena::resolve::{Unresolved, resolve};
use layout::record::TermRecord;
use numbers::refusal::{Reason, Refusal};
use numbers::{Name, Proposition, Sort, Term};

// What an annotation's type is with its free names resolved, and the counts after that.
#[derive(Clone, Copy)]
pub struct Resolution {
    pub typ: Sort,
    pub state: State,
}

// The annotation of a term's record, if it has one.
pub fn annotation_of(r: TermRecord) -> Option<Sort>
    ensures { result ≡ annotation_of r.tag r.typ }
{
    match r.tag {
        0 => None,
        1 => Some(Sort::Proposition(Proposition(r.typ))),
        _ => Some(Sort::Datatype(Name(r.typ))),
    }
}

// The annotation t of term k with its free names resolved. An unknown name is refused before 30 is.
pub fn resolve_type(
    file: &[u8],
    props: &mut [u8],
    work: &[u8],
    k: Term,
    w: Want,
    t: Sort,
    st: State,
) -> Result<Resolution, Refusal>
    requires counted { Counted file.now }
    requires loaded { Loaded file.now props.old (count_of file.now st) }
    requires type_in { TypeIn (count_of file.now st) t }
    requires made_le_limit { (st.made ≤ limit) × (8 * st.context ≤ length work.now) }
    ensures { ResolvingAs file.now props.old work.now props.new k.0 w t st result }
{
    let count = st.count(file);
    let left = st.left();
    match resolve(props, count, left, work, usize::from(st.context), t) {
        Ok(r) => Ok(Resolution {
            typ: r.typ,
            state: st.grown(count, r.count),
        }),
        Err(Unresolved::Unknown) => {
            let why = w.either(Reason::CheckUnknownName, Reason::SynthUnknownName);
            Err(why.at(k))
        }
        Err(Unresolved::Full) => Err(Reason::TooManyMade.at(k)),
    }
}

// The annotation of the checked function k, if there is one: 10 or 30 in resolving it, 14 where it is not the wanted type up to alpha.
pub fn agree(
    file: &[u8],
    props: &mut [u8],
    work: &[u8],
    k: Term,
    a: Option<Sort>,
    wanted: Sort,
    st: State,
) -> Result<State, Refusal>
    requires counted { Counted file.now }
    requires loaded { Loaded file.now props.old (count_of file.now st) }
    requires annotation_in { AnnotationIn (count_of file.now st) a × TypeIn (count_of file.now st) wanted }
    requires made_le_limit { (st.made ≤ limit) × (8 * st.context ≤ length work.now) }
    ensures { AgreedAs file.now props.old work.now props.new k.0 a wanted st result }
{
    let Some(t) = a else {
        return Ok(st);
    };
    let r = resolve_type(file, props, work, k, Want::Check(wanted), t, st)?;
    let held = r.state.held(file, props);
    if held.compare_types(r.typ, wanted).is_alpha() {
        Ok(r.state)
    } else {
        Err(Reason::CheckOtherType.at(k))
    }
}
