/// What a row is: a word `n`, a range of words `n-m` (a multiword token), or an empty node `i.k`.
///
/// CoNLL-U format page, "Words, Tokens and Empty Nodes".
#[derive(Clone, Copy, Debug, PartialEq, Eq)]
pub enum LineId {
    /// A word, by its number.
    Word(u32),
    /// A multiword token: its first and its last word.
    Span(u32, u32),
    /// An empty node: the word before it (0 before the first), and its number after that word.
    Empty(u32, u32),
}
