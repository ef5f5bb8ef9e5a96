//! What a command line works on: a file in which it makes a desk or brings one to version 2, the desk in a file, or a
//! desk in memory.

ghost use Rattle.std.specs.Prelude.{◌≡◌, option_map, string_bytes};
ghost use Rattle.tb_cli.specs.Lines.{said_by};
ghost use Rattle.tb_desk.specs.Targets.{file_of, place_by, place_in, place_of};

use tb_cli::Line;

/// What a line works on, with the path of its file.
#[derive(Clone, Copy, Debug)]
pub(crate) enum Target<'a> {
    /// A file in which it makes a desk.
    New(&'a str),
    /// A file with a desk of version 1.
    Migrate(&'a str),
    /// The desk in a file.
    File(&'a str),
    /// A desk in memory, for this line alone.
    Memory,
}

impl<'a> Target<'a> {
    /// The desk in a file, if one is named.
    fn of_path(path: &'a Option<String>) -> Target<'a>
        ensures { place_by result ≡ place_of (option_map string_bytes path.now) }
    {
        match path {
            Some(path) => Target::File(path.as_str()),
            None => Target::Memory,
        }
    }

    /// What this line works on.
    pub(crate) fn of_line(line: &'a Line) -> Target<'a>
        ensures { place_by result ≡ place_in (said_by line.now) }
    {
        match line {
            Line::Check => Target::Memory,
            Line::New { db } => Target::New(db.as_str()),
            Line::Migrate { db } => Target::Migrate(db.as_str()),
            Line::Import { db, .. }
            | Line::Event { db, .. }
            | Line::Correct { db, .. }
            | Line::Pull { db, .. }
            | Line::Restore { db, .. }
            | Line::Show { db, .. }
            | Line::Export { db, .. }
            | Line::Totals { db }
            | Line::Moves { db }
            | Line::Search { db, .. }
            | Line::Count { db, .. }
            | Line::Serve { db, .. } => Target::of_path(db),
        }
    }

    /// The file of the desk.
    pub(crate) fn file(self) -> Option<&'a str>
        ensures { option_map (λ path. path.now) result ≡ file_of (place_by self.entry) }
    {
        match self {
            Target::File(path) => Some(path),
            Target::New(_) | Target::Migrate(_) | Target::Memory => None,
        }
    }
}
