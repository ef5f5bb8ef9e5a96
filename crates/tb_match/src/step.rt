//! Whether a step may stay at its place.

/// Whether a step over one word may also stay at its place, as where the word is optional.
#[derive(Clone, Copy)]
pub(crate) enum Step {
    /// The place is kept beside those that the step leads to.
    Optional,
    /// Only the places that the step leads to are kept.
    Required,
}
