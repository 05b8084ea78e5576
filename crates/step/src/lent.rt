// The four rooms that C lends, as one value: the tree, the goals, the propositions and the work room.
#[derive(Drop)]
pub struct Lent<'a> {
    pub tree: &'a mut [u8],
    pub goals: &'a mut [u8],
    pub props: &'a mut [u8],
    pub work: &'a mut [u8],
}
