// The propositions that the rules make. Each function answers None before the limit would be passed: there would be more than `left` new
// propositions. Nothing is written then.
// Room and count are two parameters, since the room is written: with a struct that held a `&mut`, each contract would have to say that it stays.
ghost use Rattle.std.specs.Prelude.{◌≡◌, true, ◌+◌, ◌*◌, ◌<◌, ◌≤◌, length, ltb};
ghost use Rattle.rules.specs.Prop.{and, imp};
ghost use Rattle.layout.specs.File.{constant, prop_kind};
ghost use Rattle.table.specs.Links.{all_links, prop_links};
ghost use Rattle.prop.specs.Room.{room_form, Arena};
ghost use Rattle.prop.specs.Head.{link_of};
ghost use Rattle.arena.specs.Copy.{most_records};
ghost use Rattle.arena.specs.Make.{OneIs, PutIs, ForAllIs, LinkIs, ConstantIs};

use super::copy::{Bind, Copied, Put, copy, one_more};
use numbers::record::Record;
use numbers::{Name, Proposition, Serial};
use prop::head::Link;
use prop::node::{FALSE, FOR_ALL, TRUE};
use prop::propositions::Propositions;

// The record of True, which uses no field. The makers take from it what their own kinds leave unused: zeros.
const BARE: Record = Record {
    kind: TRUE,
    count: 0,
    a: 0,
    b: 0,
    c: 0,
    parameters: [0; 4],
};

// The body n of a quantifier, with the identifier s put for that quantifier's parameters.
pub fn put_in(props: &mut [u8], count: u16, left: u16, n: Proposition, s: Serial) -> Option<Copied>
    requires arena { Arena props.old count }
    requires n_lt_count { n.0 < count }
    requires left_bound { count + left ≤ most_records }
    requires most_records_in_bounds { 16 * most_records ≤ length props.old }
    ensures { PutIs props.old count left n.0 s.0 props.new result }
{
    Propositions { room: props, count }.nodes_of(n, left)?;
    Some(copy(props, count, n, 0, Put(s)))
}

// ForAll x : d over proposition n, in which it binds the identifier s.
pub fn make_forall(
    props: &mut [u8],
    count: u16,
    left: u16,
    x: Name,
    d: Name,
    s: Serial,
    n: Proposition,
) -> Option<Copied>
    requires arena { Arena props.old count }
    requires n_lt_count { n.0 < count }
    requires left_bound { count + left ≤ most_records }
    requires most_records_in_bounds { 16 * most_records ≤ length props.old }
    ensures { ForAllIs props.old count left x.0 d.0 s.0 n.0 props.new result }
{
    let k = Propositions { room: props, count }.nodes_of(n, left)?;
    if k == left {
        return None;
    }
    let body = copy(props, count, n, 0, Bind(s));
    let r = Record {
        kind: FOR_ALL,
        a: x.0,
        b: d.0,
        c: body.at.0,
        ..BARE
    };
    Some(one_more(props, body.count, r))
}

// One record, whose children are there.
fn make_one(props: &mut [u8], count: u16, left: u16, r: Record) -> Option<Copied>
    requires arena { Arena props.old count }
    requires r_value { room_form r ≡ true }
    requires r_value_2 { all_links (λ m. ltb m count) (prop_links r) ≡ true }
    requires left_bound { count + left ≤ most_records }
    requires most_records_in_bounds { 16 * most_records ≤ length props.old }
    ensures { OneIs props.old count left r props.new result }
{
    if left == 0 {
        return None;
    }
    Some(one_more(props, count, r))
}

#[tactic(auto, unfolding(layout::specs::File::prop_kind, layout::specs::File::prop_kinds))]
fn constant_kind(truth: bool) -> u8
    ensures { prop_kind result ≡ constant truth }
{
    if truth { TRUE } else { FALSE }
}

// True, or False.
pub fn make_constant(props: &mut [u8], count: u16, left: u16, truth: bool) -> Option<Copied>
    requires arena { Arena props.old count }
    requires left_bound { count + left ≤ most_records }
    requires most_records_in_bounds { 16 * most_records ≤ length props.old }
    ensures { ConstantIs truth props.old count left props.new result }
{
    let kind = constant_kind(truth);
    make_one(props, count, left, Record { kind, ..BARE })
}

// A link of two propositions, which are not copied.
fn make_link(
    props: &mut [u8],
    count: u16,
    left: u16,
    l: Link,
    a: Proposition,
    b: Proposition,
) -> Option<Copied>
    requires arena { Arena props.old count }
    requires a_lt_count { (a.0 < count) × (b.0 < count) }
    requires left_bound { count + left ≤ most_records }
    requires most_records_in_bounds { 16 * most_records ≤ length props.old }
    ensures { LinkIs (link_of l) props.old count left a.0 b.0 props.new result }
{
    let link = Record {
        kind: l.kind(),
        a: a.0,
        b: b.0,
        ..BARE
    };
    make_one(props, count, left, link)
}

pub fn make_and(
    props: &mut [u8],
    count: u16,
    left: u16,
    a: Proposition,
    b: Proposition,
) -> Option<Copied>
    requires arena { Arena props.old count }
    requires a_lt_count { (a.0 < count) × (b.0 < count) }
    requires left_bound { count + left ≤ most_records }
    requires most_records_in_bounds { 16 * most_records ≤ length props.old }
    ensures { LinkIs and props.old count left a.0 b.0 props.new result }
{
    make_link(props, count, left, Link::And, a, b)
}

pub fn make_impl(
    props: &mut [u8],
    count: u16,
    left: u16,
    a: Proposition,
    b: Proposition,
) -> Option<Copied>
    requires arena { Arena props.old count }
    requires a_lt_count { (a.0 < count) × (b.0 < count) }
    requires left_bound { count + left ≤ most_records }
    requires most_records_in_bounds { 16 * most_records ≤ length props.old }
    ensures { LinkIs imp props.old count left a.0 b.0 props.new result }
{
    make_link(props, count, left, Link::Impl, a, b)
}
