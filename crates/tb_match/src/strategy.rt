//! Which matches are hits.

/// Which of a pattern's matches are hits. Only matches with at least one word count.
///
/// This is the project's own reading of CQP's matching strategies ("CQP Interface and Query Language Manual").
#[derive(Clone, Copy, Debug, PartialEq, Eq)]
pub enum Strategy {
    /// The matches that strictly contain no other match.
    Shortest,
    /// The matches that are strictly contained in no other match.
    Longest,
    /// All matches.
    Every,
}
