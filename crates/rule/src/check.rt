// A term held to a type, up to its first premise; and what was synthesized, held against what is wanted.
// Ident, the projections and Application are synthesized first, and compared.
ghost use Rattle.std.specs.Prelude.{◌≡◌, ◌<◌, true, false};
ghost use Rattle.layout.specs.File.{terms, term_record};
ghost use Rattle.table.specs.Passing.{Counted};
ghost use Rattle.prop.specs.Room.{TypeIn};
ghost use Rattle.step.specs.declared.state.Want.TheVariants.{Check};
ghost use Rattle.step.specs.Rooms.{count_of, rooms};
ghost use Rattle.step.specs.Contract.{Ready, RanAs, synthesizes};
ghost use Rattle.rule.specs.Going.{Begins, Ended, begun_as};

use super::next::{Next, Rule};
use super::{abort, ascription, case, function, let_in, or, pair, sorry, unit};
use numbers::refusal::{Reason, Refusal};
use numbers::{Serial, Sort, Term};
use prop::compare::Compared;
use step::inference::Inference;
use step::node::{node, put_node};
use step::shift::shift;
use step::state::{Answer, State, Want, term_record};

// The kinds whose check is a comparison: Ident, the projections, Application. (Kinds of terms are bytes that are matched, as document 01's form has it:
// here, where a term is begun, and where a rule has two kinds.)
#[tactic(auto, unfolding(step::specs::Contract::synthesizes))]
fn compares(kind: u8) -> bool
    ensures { result ≡ synthesizes kind }
{
    matches!(kind, 0 | 2..=3 | 5)
}

// How term k is begun, if this is wanted of it.
pub fn begun_as(file: &[u8], k: Term, w: Want) -> Want
    requires { Counted file.now × (k.0 < terms file.now) }
    ensures { result ≡ begun_as (term_record file.now k.0).kind w }
{
    if compares(term_record(file, k).kind) {
        Want::Synth
    } else {
        w
    }
}

// Each of the other kinds by its rule.
pub fn begin(
    file: &[u8],
    tree: &mut [u8],
    goals: &mut [u8],
    props: &mut [u8],
    work: &mut [u8],
    k: Term,
    wanted: Sort,
    st: State,
) -> Result<Next, Refusal>
    requires ready { Ready file.now (rooms tree.old goals.old props.old work.old) k.0 st }
    requires type_in { TypeIn (count_of file.now st) wanted }
    requires k_value { synthesizes (term_record file.now k.0).kind ≡ false }
    ensures { Begins file.now (rooms tree.old goals.old props.old work.old)
        (rooms tree.new goals.new props.new work.new) k.0 (Check wanted) st result }
{
    match term_record(file, k).kind {
        1 => pair::check(file, props, work, k, wanted, st),
        4 => function::check(file, props, work, k, wanted, st),
        6 => let_in::begin(file, k, Want::Check(wanted), st),
        7..=8 => or::check(file, props, k, wanted, st),
        9 => case::begin(file, k, Want::Check(wanted), st),
        10 => abort::check(file, props, k, wanted, st),
        11 => unit::check(file, tree, props, k, wanted, st),
        12 => ascription::check(file, props, work, k, wanted, st),
        13 => sorry::check(tree, goals, work, k, wanted, st),
        _ => Err(Reason::CheckWrongTerm.at(k)),
    }
}

// Equal types: the tree as it is. Alpha-equal: an AlphaEq above it. Else 14.
fn hold(
    file: &[u8],
    tree: &mut [u8],
    props: &[u8],
    f: Rule,
    wanted: Sort,
    a: Answer,
) -> Result<Answer, Refusal>
    requires ended { Ended file.now tree.old props.now f.term.0 (Check wanted) f.start a.typ a.state }
    requires k_value { synthesizes (term_record file.now f.term.0).kind ≡ true }
    ensures { (c : Ended file.now tree.old props.now f.term.0 (Check wanted) f.start a.typ a.state)
        → RanAs file.now c.start (rooms tree.new c.goals props.now c.work) f.term.0 (Check wanted) f.start result }
{
    let k = f.term;
    match a.state.held(file, props).compare_types(a.typ, wanted) {
        Compared::Equal => Ok(Answer { typ: wanted, ..a }),
        Compared::Alpha => {
            let at = f.start.records;
            shift(tree, at, a.state.records);
            let top = node(Inference::AlphaEq, k, wanted, Serial::NONE, Serial::NONE, 1);
            put_node(tree, at, top);
            Ok(Answer {
                typ: wanted,
                state: a.state.inner(),
            })
        }
        Compared::Apart => Err(Reason::CheckOtherType.at(k)),
    }
}

// The end of a rule that is done, with what is wanted of it, which may not be what it was begun as.
pub fn settle(
    file: &[u8],
    tree: &mut [u8],
    props: &[u8],
    f: Rule,
    a: Answer,
) -> Result<Answer, Refusal>
    requires { Ended file.now tree.old props.now f.term.0 f.want f.start a.typ a.state }
    ensures { (c : Ended file.now tree.old props.now f.term.0 f.want f.start a.typ a.state)
        → RanAs file.now c.start (rooms tree.new c.goals props.now c.work) f.term.0 f.want f.start result }
{
    let Want::Check(wanted) = f.want else {
        return Ok(a);
    };
    if compares(term_record(file, f.term).kind) {
        hold(file, tree, props, f, wanted, a)
    } else {
        Ok(a)
    }
}
