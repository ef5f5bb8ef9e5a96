/// The outcome of the first part of a command's tests where it refuses nothing.
#[derive(Clone, Copy, PartialEq, Eq, Debug)]
pub enum Judged<R> {
    /// The command is a repeat. It has the reply that it had, and changes nothing.
    Repeat(R),
    /// The rest of the tests decides.
    Continue,
}
