// What the header says: tests 2 and 3, and the expected field's part of test 5.
ghost use Rattle.std.specs.Prelude.{◌≡◌, ◌≤◌, length};
ghost use Rattle.table.specs.Links.{expected_ok};
ghost use Rattle.table.specs.Tests.{mark, blank, header, counts};

use super::Purpose;
use layout::header::{expected_field, file_size, proposition_count, term_count};
use numbers::record::word;
use numbers::{Proposition, Term};

fn has_mark(file: &[u8]) -> bool
    requires { 16 ≤ length file.now }
    ensures { result ≡ mark file.now }
{
    (file[0] == b'N') & (file[1] == b'D') & (file[2] == b'T') & (file[3] == 0)
}

fn has_blank(file: &[u8]) -> bool
    requires { 16 ≤ length file.now }
    ensures { result ≡ blank file.now }
{
    (file[12] == 0) & (file[13] == 0) & (file[14] == 0) & (file[15] == 0)
}

// Test 2.
#[tactic(auto, unfolding(crate::specs::Tests::header))]
pub fn well_marked(file: &[u8]) -> bool
    ensures { result ≡ header file.now }
{
    file.len() >= 16 && has_mark(file) && word(file, 4) == 1 && has_blank(file)
}

// Test 3.
pub fn well_counted(file: &[u8]) -> bool
    requires { 16 ≤ length file.now }
    ensures { result ≡ counts file.now }
{
    let p = proposition_count(file);
    let t = term_count(file);
    (p <= Proposition::LIMIT) & (1 <= t) & (t <= Term::LIMIT) & (file.len() == file_size(p, t))
}

// Test 5's expected field: a check has one, a filling has none.
pub fn well_aimed(file: &[u8], purpose: Purpose) -> bool
    requires { 16 ≤ length file.now }
    ensures { result ≡ expected_ok purpose file.now }
{
    let e = expected_field(file);
    match purpose {
        Purpose::Check => e.0 < proposition_count(file),
        Purpose::Filling => e == Proposition::NONE,
    }
}
