//! How many links a chain may have.

ghost use Rattle.tb_match.specs.Weight.{IsBetween, IsBetween-prop};

/// How many links a chain may have: at least `least`, and at most `most` if it is given.
#[derive(Clone, Copy)]
pub(crate) struct Bounds {
    pub(crate) least: u8,
    pub(crate) most: Option<u8>,
    ghost order: { IsBetween least most } by { IsBetween-prop least most },
}
