// Test 7: a check's expected proposition has no free name.
ghost use Rattle.std.specs.Prelude.{◌≡◌, ◌<◌, ◌≤◌, length};
ghost use Rattle.rules.specs.Prop.{closed, named_not};
ghost use Rattle.table.specs.Closed.{closed_params};
ghost use Rattle.layout.specs.File.{props};
ghost use Rattle.table.specs.Passing.{Counted, Formed, Linked};
ghost use Rattle.table.specs.Reading.{binders, settled, prop_at};
ghost use Rattle.table.specs.Tests.{open_goal, test_room};

use super::Purpose;
use super::above::Scopes;
use layout::form::prop_shape;
use layout::header::expected_field;
use numbers::record::Record;
use numbers::{Name, Proposition};

// The name x in record n is bound.
fn is_bound(scopes: &Scopes, n: Proposition, x: u16) -> bool
    requires { n.0 < props scopes.now }
    ensures { result ≡ named_not (settled x 0 (binders scopes.now n.0)) }
{
    scopes.settle(n, Name(x)).is_some()
}

// All parameters of the record r, number n.
fn all_bound(scopes: &Scopes, n: Proposition, r: Record) -> bool
    requires { n.0 < props scopes.now }
    ensures { result ≡ closed_params scopes.now n.0 r }
{
    r.parameters
        .iter()
        .take(usize::from(r.count))
        .all(|x| is_bound(scopes, n, *x))
}

// Children have smaller numbers.
fn is_closed(scopes: &Scopes, n: Proposition) -> bool
    requires formed { Formed scopes.now }
    requires n_lt_props { n.0 < props scopes.now }
    ensures { result ≡ closed (prop_at scopes.now n.0) }
{
    let r = scopes.proposition(n);
    let s = prop_shape(r.kind);
    match s.children {
        0 => all_bound(scopes, n, r),
        1 => is_closed(scopes, Proposition(r.c)),
        _ => {
            let left = is_closed(scopes, Proposition(r.a));
            let right = is_closed(scopes, Proposition(r.b));
            left & right
        }
    }
}

// The place of an expected proposition that has a free name, None where all is bound.
pub fn open_goal(file: &[u8], work: &mut [u8], purpose: Purpose) -> Option<u16>
    requires counted { Counted file.now }
    requires formed { Formed file.now }
    requires linked { Linked purpose file.now }
    requires test_room_in_bounds { test_room ≤ length work.old }
    ensures { result ≡ open_goal purpose file.now }
{
    match purpose {
        Purpose::Filling => None,
        Purpose::Check => {
            let e = expected_field(file);
            if is_closed(&Scopes::of(file, work), e) {
                None
            } else {
                Some(e.0)
            }
        }
    }
}
