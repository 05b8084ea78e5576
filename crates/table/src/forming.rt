// Test 4: known kinds, tags and parameter counts, and zeros in every field that the kind does not use.
ghost use Rattle.std.specs.Prelude.{◌≡◌, not, ◌≤◌, length};
ghost use Rattle.numbers.specs.Limits.{most_propositions, most_terms};
ghost use Rattle.layout.specs.File.{props, prop_record, term_record, file_size};
ghost use Rattle.layout.specs.Form.{fits, prop_form, term_form};
ghost use Rattle.table.specs.Reading.{first};
ghost use Rattle.table.specs.Tests.{AtMost, or_term, formless};
ghost use Rattle.table.specs.Passing.{Counted};

use super::search::first;
use layout::form::{prop_shape, term_shape};
use layout::header::{proposition_count, term_count};
use layout::record::{TermRecord, proposition_at, term_at};
use numbers::record::Record;
use numbers::{Proposition, Term};

// A field that is not used is zero. (A flag beside the field: an Option would be made only to be taken apart at once.)
fn fits(used: bool, x: u16) -> bool
    ensures { result ≡ fits used x }
{
    used | (x == 0)
}

fn prop_form(r: Record) -> bool
    ensures { result ≡ prop_form r }
{
    let s = prop_shape(r.kind);
    let n = r.count;
    let fields = fits(0 < s.fields, r.a) & fits(1 < s.fields, r.b) & fits(2 < s.fields, r.c);
    let rest = r.parameters.iter().skip(usize::from(n)).all(|x| *x == 0);
    (s.least <= n) & (n <= s.most) & fields & rest
}

fn term_form(r: TermRecord) -> bool
    ensures { result ≡ term_form r }
{
    let s = term_shape(r.kind);
    let n = r.tag;
    let tagged = (s.least <= n) & (n <= s.most) & fits(0 < n, r.typ);
    let named = fits(0 < s.names, r.name1.0) & fits(1 < s.names, r.name2.0);
    let linked = fits(0 < s.children, r.child1.0)
        & fits(1 < s.children, r.child2.0)
        & fits(2 < s.children, r.child3.0)
        & (r.zero == 0);
    tagged & named & linked
}

fn formless_proposition(file: &[u8], p: u16) -> Option<u16>
    requires { file_size p 0 ≤ length file.now }
    ensures { result ≡ first (λ n. not (prop_form (prop_record file.now n))) p }
{
    first(p, |n| !prop_form(proposition_at(file, Proposition(n))))
}

fn formless_term(file: &[u8], p: u16, count: u16) -> Option<u16>
    requires { (p ≡ props file.now) × (file_size p count ≤ length file.now) }
    ensures { result ≡ first (λ t. not (term_form (term_record file.now t))) count }
{
    first(count, |t| !term_form(term_at(file, p, Term(t))))
}

// The lowest guilty record: a proposition, or else a term, whose place counts the p propositions before it.
pub fn or_term(g: Option<u16>, p: u16, h: Option<u16>) -> Option<u16>
    requires p_le_most_propositions { p ≤ most_propositions }
    requires at_most { AtMost most_terms h }
    ensures { result ≡ or_term g p h }
{
    g.or(h.map(|t| p + t))
}

// Test 4: the place of the lowest guilty record, None where there is none.
pub fn formless(file: &[u8]) -> Option<u16>
    requires { Counted file.now }
    ensures { result ≡ formless file.now }
{
    let p = proposition_count(file);
    let g = formless_proposition(file, p);
    let h = formless_term(file, p, term_count(file));
    or_term(g, p, h)
}
