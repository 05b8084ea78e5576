// TypeAscription, which has no node of its own. Checked: the annotation is the wanted type up to alpha, else 15, and the inside is held to the wanted
// type. Synthesized: the inside is held to the annotation, which is answered.
ghost use Rattle.std.specs.Prelude.{◌≡◌, List, ℕ, ◌*◌, ◌≤◌, length};
ghost use Rattle.layout.specs.File.{term_record};
ghost use Rattle.prop.specs.Room.{TypeIn};
ghost use Rattle.step.specs.declared.state.Want.TheVariants.{Check, Synth};
ghost use Rattle.step.specs.Rooms.{count_of, rooms};
ghost use Rattle.rule.specs.Going.{Begun, Begins};

use super::next::Next;
use numbers::refusal::{Reason, Refusal};
use numbers::{Sort, Term};
use step::state::{State, Want, term_record};
use step::typing::{annotation_of, resolve_type};

// A table that passes its tests has no ascription without an annotation.
pub fn check(
    file: &[u8],
    props: &mut [u8],
    work: &[u8],
    k: Term,
    wanted: Sort,
    st: State,
) -> Result<Next, Refusal>
    requires begun { Begun file.now props.old work.now k.0 st }
    requires type_in { TypeIn (count_of file.now st) wanted }
    requires k_value { (term_record file.now k.0).kind ≡ 12 }
    ensures { (tree goals : List ℕ) → Begins file.now (rooms tree goals props.old work.now)
        (rooms tree goals props.new work.now) k.0 (Check wanted) st result }
{
    let r = term_record(file, k);
    let Some(t) = annotation_of(r) else {
        return Err(Reason::CheckWrongTerm.at(k));
    };
    let a = resolve_type(file, props, work, k, Want::Check(wanted), t, st)?;
    let held = a.state.held(file, props);
    if held.compare_types(a.typ, wanted).is_alpha() {
        Ok(Next::Instead(r.child1, wanted, a.state))
    } else {
        Err(Reason::CheckOtherAscription.at(k))
    }
}

pub fn synthesize(
    file: &[u8],
    props: &mut [u8],
    work: &[u8],
    k: Term,
    st: State,
) -> Result<Next, Refusal>
    requires begun { Begun file.now props.old work.now k.0 st }
    requires k_value { (term_record file.now k.0).kind ≡ 12 }
    ensures { (tree goals : List ℕ) → Begins file.now (rooms tree goals props.old work.now)
        (rooms tree goals props.new work.now) k.0 Synth st result }
{
    let r = term_record(file, k);
    let Some(t) = annotation_of(r) else {
        return Err(Reason::SynthNoType.at(k));
    };
    let a = resolve_type(file, props, work, k, Want::Synth, t, st)?;
    Ok(Next::Instead(r.child1, a.typ, a.state))
}
