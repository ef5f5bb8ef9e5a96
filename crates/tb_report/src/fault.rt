//! Why a table cannot be written.

/// Why a table was not written as CSV.
#[derive(Clone, Copy, PartialEq, Eq, Debug)]
pub enum ReportFault {
    /// Memory was refused.
    Memory,
    /// The writer failed.
    Write,
}
