// The propositions room as far as it holds propositions: its first `count` records. Its methods stand in other modules: `at` and `view_at` in node,
// `each` in each, `holds` in holds, `nodes_of` in size, `compare` and `compare_types` in compare, `split`, `over` and `is_truth` in head.
ghost use Rattle.prop.specs.Room.{Arena};

#[derive(Clone, Copy)]
pub struct Propositions<'a> {
    pub room: &'a [u8],
    pub count: u16,
    pub ghost arena: { Arena room.now count },
}
