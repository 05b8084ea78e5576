// A record of the filling with its links moved: document 01, "Tree, goals, filling".
ghost use Rattle.std.specs.Prelude.{◌≡◌, true, cond, ◌+◌, ◌≤◌};
ghost use Rattle.numbers.specs.Limits.{most_propositions};
ghost use Rattle.editing.specs.Edited.{moved_prop, moved_term};
ghost use Rattle.editing.specs.Copied.{PropMoves, TermMoves};

use layout::form::{prop_shape, term_shape};
use numbers::record::Record;

// A field moves where it is a link. (A flag beside the field: an Option would be made only to be taken apart at once.)
fn moved(link: bool, field: u16, by: u16) -> u16
    requires { (by ≤ most_propositions) × (link ≡ true → field ≤ most_propositions) }
    ensures { result ≡ cond link (by + field) field }
{
    if link { by + field } else { field }
}

// Two children, or a quantifier's body.
pub fn move_prop(r: Record, p: u16) -> Record
    requires { PropMoves p r }
    ensures { result ≡ moved_prop p r }
{
    let s = prop_shape(r.kind);
    let x = moved(1 < s.children, r.a, p);
    let y = moved(1 < s.children, r.b, p);
    let z = moved(s.children == 1, r.c, p);
    Record {
        a: x,
        b: y,
        c: z,
        ..r
    }
}

// Up to three subterms, and a type that is a proposition. The filling's root takes no new place, so the terms after it move by one
// less than there are.
pub fn move_term(r: Record, p: u16, t: u16) -> Record
    requires { TermMoves p t r }
    ensures { result ≡ moved_term p t r }
{
    let s = term_shape(r.kind);
    let typ = moved(r.count == 1, r.a, p);
    let by = t - 1;
    let x = moved(0 < s.children, r.parameters[0], by);
    let y = moved(1 < s.children, r.parameters[1], by);
    let z = moved(2 < s.children, r.parameters[2], by);
    Record {
        a: typ,
        parameters: [x, y, z, r.parameters[3]],
        ..r
    }
}
