// The search that tests 4 and 5 share.
ghost use Rattle.std.specs.Prelude.{◌≡◌, Bool, ℕ, ◌<◌};
ghost use Rattle.table.specs.Reading.{first};

// The lowest number below n that passes the test.
pub fn first<F: Fn(u16) -> bool>(n: u16, test: F) -> Option<u16>
    requires { (i : ℕ) → i < n → F.pre test i }
    ensures { (t : ℕ → Bool) → ((i : ℕ) (b : Bool) → i < n → F.post test i b → b ≡ t i) → result ≡ first t n }
{
    for i in 0..n {
        if test(i) {
            return Some(i);
        }
    }
    None
}
