// The table's propositions, put at the front of their room: names are settled here once, so that no rule has to look for their quantifiers again.
ghost use Rattle.std.specs.Prelude.{◌≡◌, ◌*◌, ◌<◌, ◌≤◌, length};
ghost use Rattle.layout.specs.File.{props as prop_count};
ghost use Rattle.table.specs.Tests.{test_room};
ghost use Rattle.table.specs.Passing.{Counted, Formed, WellLinked};
ghost use Rattle.prop.specs.Atom.{becomes};
ghost use Rattle.arena.specs.Load.{named, loaded_atom, loaded_record, Loaded};

use layout::header::proposition_count;
use numbers::Proposition;
use numbers::record::{Record, put};
use prop::atom::{Parameter, parameter_at, with_parameters};
use prop::node::ATOM;
use table::above::Scopes;

// A parameter of record n: a name is free, or bound. (A table has no others.)
fn load_parameter(scopes: &Scopes, n: Proposition, p: Parameter) -> Parameter
    requires { n.0 < prop_count scopes.now }
    ensures { result ≡ becomes (named scopes.now n.0) p }
{
    match p {
        Parameter::Free(x) => match scopes.settle(n, x) {
            Some(k) => Parameter::Bound(k),
            None => p,
        },
        Parameter::Identifier(_) => p,
        Parameter::Bound(_) => p,
        Parameter::Unused => p,
    }
}

// The atom r, which is record n.
fn load_atom(scopes: &Scopes, n: Proposition, r: Record) -> Record
    requires { n.0 < prop_count scopes.now }
    ensures { result ≡ loaded_atom scopes.now n.0 r }
{
    let p = load_parameter(scopes, n, parameter_at(r, 0));
    let q = load_parameter(scopes, n, parameter_at(r, 1));
    let s = load_parameter(scopes, n, parameter_at(r, 2));
    let t = load_parameter(scopes, n, parameter_at(r, 3));
    with_parameters(r, p, q, s, t)
}

// Record n, as the room holds it.
fn load_record(scopes: &Scopes, n: Proposition) -> Record
    requires { n.0 < prop_count scopes.now }
    ensures { result ≡ loaded_record scopes.now n.0 }
{
    let r = scopes.proposition(n);
    let kind = r.kind;
    if kind == ATOM {
        load_atom(scopes, n, r)
    } else {
        r
    }
}

// All of them. The work room holds the quantifiers above each proposition meanwhile.
pub fn load(file: &[u8], work: &mut [u8], props: &mut [u8])
    requires counted { Counted file.now }
    requires formed { Formed file.now }
    requires well_linked { WellLinked file.now }
    requires test_room_in_bounds { (test_room ≤ length work.old) × (16 * prop_count file.now ≤ length props.old) }
    ensures { Loaded file.now props.old props.new }
{
    let scopes = Scopes::of(file, work);
    let p = proposition_count(file);
    for n in 0..p {
        let r = load_record(&scopes, Proposition(n));
        put(props, n as usize, r);
    }
}
