/// How much a desk holds: sentences, moves, and hits in one answer.
#[derive(Clone, Copy, PartialEq, Eq, Debug)]
pub struct Limits {
    pub sentences: u64,
    pub moves: u64,
    pub hits: u64,
}
