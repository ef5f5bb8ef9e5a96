//! What a system says of a file.

/// A file that was found: its size in bytes, and what identifies it. Later its path may have another file.
#[derive(Clone, Copy)]
pub(crate) struct Found {
    /// The number of the device that has it.
    pub(crate) device: u64,
    /// Its number on that device: the inode.
    pub(crate) file: u64,
    pub(crate) size: u64,
}
