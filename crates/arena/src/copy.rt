// Copies of a proposition with its parameters changed, made of new records.
ghost use Rattle.std.specs.Prelude.{◌≡◌, true, ℕ, ◌+◌, ◌*◌, ◌<◌, ◌≤◌, length, ⊤};
ghost use Rattle.numbers.specs.Limits.{largest};
ghost use Rattle.rules.specs.Prop.{Param, put_at, bind_at, size};
ghost use Rattle.rules.specs.Context.{settle};
ghost use Rattle.layout.specs.File.{atomic, prop_kind};
ghost use Rattle.prop.specs.Room.{room_form, room_at, Arena};
ghost use Rattle.prop.specs.Atom.{becomes};
ghost use Rattle.arena.specs.Copy.{most_records, names, AtomIs, MoreIs, CopiedIs};

use context::identifier_context::get_by_name;
use numbers::record::{Record, put};
use numbers::{Name, Proposition, Serial};
use prop::atom::{Parameter, parameter_at, with_parameters};
use prop::node::{AND, ATOM, EXISTS, FALSE, FOR_ALL, IMPL, TRUE};
use prop::propositions::Propositions;

// What becomes of a parameter that stands below d quantifiers.
pub trait Change: Copy {
    ghost changed: { Self → ℕ → Param → Param };

    // What the change reads is there.
    ghost ready: { Self → Type 0 };

    fn apply(self, p: Parameter, d: u16) -> Parameter
        requires { ready self }
        ensures { result ≡ becomes (changed self d) p };
}

// An identifier for the parameters of the quantifier around what is copied.
#[derive(Clone, Copy)]
pub struct Put(pub Serial);

impl Change for Put {
    ghost changed = { λ c. put_at c.0.0 };

    ghost ready = { λ c. ⊤ };

    #[tactic(auto, unfolding(rules::specs::Prop::put_at))]
    fn apply(self, p: Parameter, d: u16) -> Parameter {
        match p {
            Parameter::Bound(k) if k == d => Parameter::Identifier(self.0),
            _ => p,
        }
    }
}

// The reverse: an identifier is bound by that quantifier.
#[derive(Clone, Copy)]
pub struct Bind(pub Serial);

impl Change for Bind {
    ghost changed = { λ c. bind_at c.0.0 };

    ghost ready = { λ c. ⊤ };

    #[tactic(auto, unfolding(rules::specs::Prop::bind_at))]
    fn apply(self, p: Parameter, d: u16) -> Parameter {
        match p {
            Parameter::Identifier(i) if i == self.0 => Parameter::Bound(d),
            _ => p,
        }
    }
}

// Free names become the identifiers of their latest entries, of the first `len` in the work room. (Where all names are known there is no
// serial, and each name has an entry.)
#[derive(Clone, Copy)]
pub struct Resolve<'a> {
    pub work: &'a [u8],
    pub len: usize,
}

impl<'a> Change for Resolve<'a> {
    ghost changed = { λ c d. settle (names c.work.now c.len) };

    ghost ready = { λ c. 8 * c.len ≤ length c.work.now };

    #[tactic(auto, unfolding(rules::specs::Context::settle, rules::specs::Context::settle_as))]
    fn apply(self, p: Parameter, _d: u16) -> Parameter {
        match p {
            Parameter::Free(x) => match get_by_name(self.work, self.len, x) {
                Some(e) => Parameter::Identifier(e.serial),
                None => p,
            },
            Parameter::Identifier(i) => Parameter::Free(Name(i.0)),
            Parameter::Bound(_) | Parameter::Unused => p,
        }
    }
}

// The copy's number, and how many records there are with it.
#[derive(Clone, Copy)]
pub struct Copied {
    pub at: Proposition,
    pub count: u16,
}

// An atom's record with its parameters changed. (Most have one or none.)
fn change_atom<C: Change>(r: Record, d: u16, change: C) -> Record
    requires kind_value { prop_kind r.kind ≡ atomic }
    requires r_value { room_form r ≡ true }
    requires change_in { C.ready change }
    ensures { AtomIs (C.changed change d) r result }
{
    let p = change.apply(parameter_at(r, 0), d);
    if r.count <= 1 {
        let none = Parameter::Unused;
        return with_parameters(r, p, none, none, none);
    }
    let q = change.apply(parameter_at(r, 1), d);
    let s = change.apply(parameter_at(r, 2), d);
    let t = change.apply(parameter_at(r, 3), d);
    with_parameters(r, p, q, s, t)
}

// One record more. (The room is written, so it goes with its count beside it: a struct that holds a `&mut` has each contract say that the reference stays.)
pub fn one_more(props: &mut [u8], count: u16, r: Record) -> Copied
    requires count_lt_most_records { count < most_records }
    requires most_records_in_bounds { 16 * most_records ≤ length props.old }
    ensures { MoreIs props.old count r props.new result }
{
    put(props, usize::from(count), r);
    Copied {
        at: Proposition(count),
        count: count + 1,
    }
}

// A copy of proposition n, which stands below d quantifiers: children before parents, after the first `count` records. The caller has counted
// the nodes, so there is room for it.
pub fn copy<C: Change>(props: &mut [u8], count: u16, n: Proposition, d: u16, change: C) -> Copied
    requires arena { Arena props.old count }
    requires n_lt_count { n.0 < count }
    requires n_bound { d + n.0 ≤ largest }
    requires by_index { (tables : ℕ) → count + size (room_at tables props.old n.0) ≤ most_records }
    requires most_records_in_bounds { 16 * most_records ≤ length props.old }
    requires change_in { C.ready change }
    ensures { CopiedIs props.old count n.0 (C.changed change) d props.new result }
{
    let r = Propositions { room: props, count }.at(n);
    match r.kind {
        TRUE..=FALSE => one_more(props, count, r),
        AND..=IMPL => {
            let first = copy(props, count, Proposition(r.a), d, change);
            let second = copy(props, first.count, Proposition(r.b), d, change);
            let link = Record {
                a: first.at.0,
                b: second.at.0,
                ..r
            };
            one_more(props, second.count, link)
        }
        FOR_ALL..=EXISTS => {
            let body = copy(props, count, Proposition(r.c), d + 1, change);
            let quantifier = Record { c: body.at.0, ..r };
            one_more(props, body.count, quantifier)
        }
        ATOM..=255 => one_more(props, count, change_atom(r, d, change)),
    }
}
