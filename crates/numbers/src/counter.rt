// Fresh numbers, as in the original's util/counter.rs.
ghost use Rattle.std.specs.Prelude.{◌≡◌, ◌+◌, ◌<◌};
ghost use Rattle.numbers.specs.Limits.{largest};

#[derive(Clone, Copy, Debug, PartialEq, Eq)]
pub struct Counter {
    pub count: u16,
}

impl Counter {
    // The count, which is then one further.
    pub fn next_value(&mut self) -> u16
        requires { self.old.count < largest }
        ensures { (result ≡ self.old.count) × (self.new.count ≡ self.old.count + 1) }
    {
        let value = self.count;
        self.count += 1;
        value
    }
}
