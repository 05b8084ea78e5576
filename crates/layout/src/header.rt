// The header's numbers, and the length that goes with them.
ghost use Rattle.std.specs.Prelude.{◌≡◌, ◌≤◌, length};
ghost use Rattle.layout.specs.File.{props, terms, expected, file_size};

use numbers::Proposition;
use numbers::record::word;

pub fn proposition_count(file: &[u8]) -> u16
    requires { 16 ≤ length file.now }
    ensures { result ≡ props file.now }
{
    word(file, 6)
}

pub fn term_count(file: &[u8]) -> u16
    requires { 16 ≤ length file.now }
    ensures { result ≡ terms file.now }
{
    word(file, 8)
}

pub fn expected_field(file: &[u8]) -> Proposition
    requires { 16 ≤ length file.now }
    ensures { result.0 ≡ expected file.now }
{
    Proposition::from_bytes(file, 10)
}

// How many bytes a file with p propositions and t terms has.
pub fn file_size(p: u16, t: u16) -> usize
    ensures { result ≡ file_size p t }
{
    16 + (16 * (p as usize) + 16 * (t as usize))
}
