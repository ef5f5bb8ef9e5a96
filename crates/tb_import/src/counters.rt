use tb_refine::Counters;

/// What an import needs of a desk beside the tables: what every command needs, and how many batches and sentences there
/// are.
#[derive(Clone, Copy, Debug)]
pub struct ImportCounters {
    pub counts: Counters,
    pub batches: u32,
    pub sentences: u32,
}
