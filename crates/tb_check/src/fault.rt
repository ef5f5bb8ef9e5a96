/// A fault of a file.
#[derive(Clone, Copy, Debug, PartialEq, Eq)]
pub enum Fault {
    /// A line, counted from 1, and its least code, 1 to 9. Or code 10, for the end of the file. The line is then the
    /// one after the last line feed.
    Line {
        line: usize,
        code: u8,
    },
    /// A sentence, counted from 1, and a rule that it breaks, 1 to 12. For rules 4 to 8 also the first row at fault,
    /// counted from 1, else 0.
    Rule {
        sentence: usize,
        rule: u8,
        row: usize,
    },
}
