// Floor 2, below the tests: where a table's numbers and records stand, and what each kind of record uses. (`as usize`: as in `table`.)
#![tactic(auto)]

pub mod form;
pub mod header;
pub mod record;
