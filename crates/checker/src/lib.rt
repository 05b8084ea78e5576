// Floor 7: check and synthesize, which call each other through the rules. A rule is a value, and `perform` does with it what `obey` of the rules'
// definition does with a program. The cycle has these four functions, however many rules there are.
#![tactic(auto)]

ghost use Rattle.std.specs.Prelude.{◌≡◌};
ghost use Rattle.prop.specs.Room.{TypeIn};
ghost use Rattle.step.specs.declared.state.Want.TheVariants.{Check, Synth};
ghost use Rattle.layout.specs.File.{term_record};
ghost use Rattle.step.specs.Rooms.{count_of};
ghost use Rattle.step.specs.Lent.{held, SameLent};
ghost use Rattle.step.specs.Modes.{WantIn};
ghost use Rattle.step.specs.Contract.{Ready, RanAs};
ghost use Rattle.rule.specs.Going.{Begins, begun_as};

use numbers::refusal::Refusal;
use numbers::{Sort, Term};
use rule::check::{begun_as, settle};
use rule::next::{Next, Rule};
use rule::resume::resume;
use step::lent::Lent;
use step::state::{Answer, State, Want};

// A rule up to its first premise.
fn begin(file: &[u8], lent: &mut Lent<'_>, f: Rule) -> Result<Next, Refusal>
    requires ready { Ready file.now (held lent.old) f.term.0 f.start }
    requires want_in { WantIn (count_of file.now f.start) f.want }
    requires begun { f.want ≡ begun_as (term_record file.now f.term.0).kind f.want }
    ensures done { Begins file.now (held lent.old) (held lent.new) f.term.0 f.want f.start result }
    ensures same_rooms { SameLent lent.old lent.new }
{
    match f.want {
        Want::Synth => rule::synthesize::begin(
            file, lent.tree, lent.props, lent.work, f.term, f.start,
        ),
        Want::Check(t) => rule::check::begin(
            file, lent.tree, lent.goals, lent.props, lent.work, f.term, t, f.start,
        ),
    }
}

// The rule of term k, from premise to premise. It goes on as it was begun (`f`), and ends as it was wanted (`whole`).
#[cycle(check_perform_run_synthesize)]
fn perform(file: &[u8], lent: &mut Lent<'_>, k: Term, w: Want, st: State) -> Result<Answer, Refusal>
    requires ready { Ready file.now (held lent.old) k.0 st }
    requires want_in { WantIn (count_of file.now st) w }
    ensures done { RanAs file.now (held lent.old) (held lent.new) k.0 w st result }
    ensures same_rooms { SameLent lent.old lent.new }
{
    let whole = Rule {
        term: k,
        want: w,
        start: st,
    };
    let want = begun_as(file, k, w);
    let f = Rule { want, ..whole };
    let mut next = begin(file, lent, f)?;
    // No `for`: there are as many turns as the rule has premises, and only the rule says, turn by turn, whether it asks for another.
    loop {
        match next {
            Next::Done(a) => {
                // Bound first: `settle` only reads it, beside the tree, which it writes.
                let props: &mut [u8] = lent.props;
                return settle(file, lent.tree, props, whole, a);
            }
            Next::Instead(x, t, s) => {
                return check(file, lent, x, t, s);
            }
            Next::Ask(rest, x, v, s) => {
                let mut a = run(file, lent, x, v, s)?;
                a.state = a.state.leave(st.context);
                next = resume(file, lent.tree, lent.props, lent.work, f, rest, a)?;
            }
        }
    }
}

// Term k, asked for its type or held to one.
#[cycle(check_perform_run_synthesize)]
fn run(file: &[u8], lent: &mut Lent<'_>, k: Term, w: Want, st: State) -> Result<Answer, Refusal>
    requires ready { Ready file.now (held lent.old) k.0 st }
    requires want_in { WantIn (count_of file.now st) w }
    ensures done { RanAs file.now (held lent.old) (held lent.new) k.0 w st result }
    ensures same_rooms { SameLent lent.old lent.new }
{
    match w {
        Want::Synth => synthesize(file, lent, k, st),
        Want::Check(t) => check(file, lent, k, t, st),
    }
}

// Whether term k has the type that is wanted of it.
#[cycle(check_perform_run_synthesize)]
pub fn check(
    file: &[u8],
    lent: &mut Lent<'_>,
    k: Term,
    wanted: Sort,
    st: State,
) -> Result<Answer, Refusal>
    requires ready { Ready file.now (held lent.old) k.0 st }
    requires type_in { TypeIn (count_of file.now st) wanted }
    ensures done { RanAs file.now (held lent.old) (held lent.new) k.0 (Check wanted) st result }
    ensures same_rooms { SameLent lent.old lent.new }
{
    perform(file, lent, k, Want::Check(wanted), st)
}

// The type of term k.
#[cycle(check_perform_run_synthesize)]
fn synthesize(file: &[u8], lent: &mut Lent<'_>, k: Term, st: State) -> Result<Answer, Refusal>
    requires { Ready file.now (held lent.old) k.0 st }
    ensures done { RanAs file.now (held lent.old) (held lent.new) k.0 Synth st result }
    ensures same_rooms { SameLent lent.old lent.new }
{
    perform(file, lent, k, Want::Synth, st)
}
