//! What is wrong at a place of a file.

ghost use Rattle.std.specs.Fmt.{WritesOnOk};
ghost use Rattle.std.specs.Prelude.{◌≡◌, IfOk, None, option_map, Some, string_bytes};
ghost use Rattle.tb_words.specs.Columns.{column_shown};
ghost use Rattle.tb_words.specs.Explained.{BeginWith};
ghost use Rattle.tb_words.specs.Shown.{field_text, finding_text, is_bare, is_in_line, is_wanted, message_text};
ghost use Rattle.tb_words.specs.Shown.{rest_text, row_text, value_shown};
ghost use Rattle.tb_words.specs.Told.{IsShownAs};
ghost use Rattle.tb_words.specs.declared.findings.Detail.TheVariants.{Nothing};
ghost use Rattle.tb_words.specs.declared.findings.Value.TheVariants.{Id};

use crate::columns::name;
use crate::words::{Words, named, shown};
use std::alloc::{AllocError, Global};
use std::fmt::{self, Display, Formatter};
use tb_check::Fault;
use tb_conllu::LineId;
use tb_report::FaultRow;

/// What is at a place.
#[derive(Clone, Copy)]
pub(crate) enum Value<'a> {
    Text(&'a str),
    Id(LineId),
    Head(Option<u32>),
}

impl Display for Value<'_> {
    ghost use Rattle.tb_words.specs.Shown.{value_text};

    ghost output = { λ value. Some (value_text value) };

    fn fmt<W: fmt::Write>(&self, f: &mut Formatter<W>) -> fmt::Result {
        match self {
            Value::Text(text) => write!(f, "{}", shown(text)),
            Value::Id(LineId::Word(word)) => write!(f, "{word}"),
            Value::Id(LineId::Span(first, last)) => write!(f, "{first}-{last}"),
            Value::Id(LineId::Empty(word, node)) => write!(f, "{word}.{node}"),
            Value::Head(Some(head)) => write!(f, "{head}"),
            Value::Head(None) => f.write_str("_"),
        }
    }
}

/// The ID of a row as a value.
fn id_value<'a>(id: Option<LineId>) -> Option<Value<'a>>
    ensures { result ≡ option_map (λ i. Id i) id }
{
    match id {
        Some(id) => Some(Value::Id(id)),
        None => None,
    }
}

/// The name of a column; empty where none is named.
fn column_text(column: Option<usize>) -> &'static str
    ensures { result.now ≡ column_shown column }
{
    match column {
        Some(column) => name(column),
        None => "",
    }
}

/// What is at a place, as a text; empty where nothing is said of it.
fn text_of(alloc: Global, value: Option<Value<'_>>) -> Result<String, AllocError>
    ensures { IfOk result (λ text. string_bytes text ≡ value_shown value.entry) }
{
    match value {
        Some(value) => format!(in alloc; "{value}"),
        None => Ok(String::new(alloc)),
    }
}

/// What there is to say of a place beside its row, its column and its value.
#[derive(Drop)]
pub(crate) enum Detail {
    Nothing,
    /// The first byte that is not UTF-8: its number in the line, from 1, and its value.
    Byte(usize, u8),
    /// The number of a character in the line, from 1.
    Character(usize),
    /// The same, and the character.
    Control(usize, u32),
    /// How many columns the line has.
    Columns(usize),
    /// How many words the sentence has.
    Words(usize),
    /// A second line with the same fault.
    Again(usize),
    /// A second row with the same fault, after its line.
    And(usize, LineId),
    /// The row that has to stand in this place.
    Instead(LineId),
    /// Words that hang from one another; the row is one of them.
    Circle(String),
    /// Where the text and the forms differ.
    Spelled(String),
    /// An earlier sentence, and its first line.
    Earlier(u64, usize),
}

impl Display for Detail {
    ghost use Rattle.tb_words.specs.Shown.{detail_text};

    ghost output = { λ detail. Some (detail_text detail) };

    fn fmt<W: fmt::Write>(&self, f: &mut Formatter<W>) -> fmt::Result {
        match self {
            Detail::Nothing => Ok(()),
            Detail::Byte(place, byte) => write!(f, "byte {place}, hex {byte:02X}"),
            Detail::Character(place) => write!(f, "character {place}"),
            Detail::Control(place, code) => write!(f, "character {place}, U+{code:04X}"),
            Detail::Columns(count) => write!(f, "{count} columns"),
            Detail::Words(count) => write!(f, "{count} words"),
            Detail::Again(line) => write!(f, "and line {line}"),
            Detail::And(line, id) => write!(f, "and line {line}, {}", named(*id)),
            Detail::Instead(id) => write!(f, "where {} has to stand", named(*id)),
            Detail::Circle(words) => write!(f, "words {words}"),
            Detail::Spelled(words) => write!(f, "{words}"),
            Detail::Earlier(sentence, line) => {
                write!(f, "as in sentence {sentence} from line {line}")
            }
        }
    }
}

/// What is wrong at a place of a file, and what is there. It is shown as its place.
#[derive(Drop)]
pub(crate) struct Finding<'a> {
    line: usize,
    id: Option<LineId>,
    column: Option<usize>,
    value: Option<Value<'a>>,
    detail: Detail,
    sentence: &'static str,
}

impl Finding<'_> {
    /// Writes the line, or both, and the row where the detail does not name it.
    fn put_row<W: fmt::Write>(&self, f: &mut Formatter<W>) -> fmt::Result
        ensures { WritesOnOk W.write_str_gives f.old result (row_text self.now.line self.now.id self.now.detail) f.new }
    {
        match (&self.detail, self.id) {
            (Detail::Again(second), _) => write!(f, "lines {} and {second}", self.line),
            (Detail::Circle(_), _) | (_, None) => write!(f, "line {}", self.line),
            (_, Some(id)) => write!(f, "line {}, {}", self.line, named(id)),
        }
    }

    /// Writes the column and the value.
    fn put_value<W: fmt::Write>(&self, f: &mut Formatter<W>) -> fmt::Result
        ensures { WritesOnOk W.write_str_gives f.old result (field_text self.now.column self.now.value) f.new }
    {
        match (self.column, self.value) {
            (Some(column), Some(value)) => write!(f, ", {} `{value}`", name(column)),
            (Some(column), None) => write!(f, ", {}", name(column)),
            (None, Some(value)) => write!(f, ", `{value}`"),
            (None, None) => Ok(()),
        }
    }
}

fn is_bare(detail: &Detail) -> bool
    ensures { result ≡ is_bare detail.now }
{
    matches!(detail, Detail::Nothing)
}

/// Whether there is no detail, or the line has it.
fn is_in_line(detail: &Detail) -> bool
    ensures { result ≡ is_in_line detail.now }
{
    matches!(detail, Detail::Nothing | Detail::Again(_))
}

/// Whether the detail says what has to stand there.
fn is_wanted(detail: &Detail) -> bool
    ensures { result ≡ is_wanted detail.now }
{
    matches!(detail, Detail::Instead(_))
}

/// Writes what there is to say beside the line.
fn put_detail<W: fmt::Write>(detail: &Detail, f: &mut Formatter<W>) -> fmt::Result
    ensures { WritesOnOk W.write_str_gives f.old result (rest_text detail.now) f.new }
{
    if is_in_line(detail) {
        Ok(())
    } else if is_wanted(detail) {
        write!(f, " {detail}")
    } else {
        write!(f, ", {detail}")
    }
}

impl Display for Finding<'_> {
    ghost use Rattle.tb_words.specs.Shown.{finding_text};

    ghost output = { λ found. Some (finding_text found) };

    fn fmt<W: fmt::Write>(&self, f: &mut Formatter<W>) -> fmt::Result {
        self.put_row(f)?;
        self.put_value(f)?;
        put_detail(&self.detail, f)
    }
}

impl<'a> Finding<'a> {
    /// What is wrong with a line.
    pub(crate) fn on(line: usize, sentence: &'static str) -> Finding<'a>
        ensures { result ≡ record {
          line = line;
          id = None;
          column = None;
          value = None;
          detail = Nothing;
          sentence = sentence.entry;
        } }
    {
        Finding {
            line,
            id: None,
            column: None,
            value: None,
            detail: Detail::Nothing,
            sentence,
        }
    }

    /// Adds the ID of the row.
    pub(crate) fn of(mut self, id: LineId) -> Finding<'a>
        ensures { result ≡ record self.entry { id = Some id } }
    {
        self.id = Some(id);
        self
    }

    /// Adds the column.
    pub(crate) fn in_column(mut self, column: usize) -> Finding<'a>
        ensures { result ≡ record self.entry { column = Some column } }
    {
        self.column = Some(column);
        self
    }

    /// Adds what is there.
    pub(crate) fn with(mut self, value: Value<'a>) -> Finding<'a>
        ensures { result ≡ record self.entry { value = Some value.entry } }
    {
        self.value = Some(value);
        self
    }

    /// Adds a detail.
    pub(crate) fn and(mut self, detail: Detail) -> Finding<'a>
        ensures { result ≡ record self.entry { detail = detail } }
    {
        self.detail = detail;
        self
    }

    /// The words for it.
    pub(crate) fn words(&self, alloc: Global) -> Words
        ensures sentence { result.sentence.now ≡ self.now.sentence.now }
        ensures alone { (result.page ≡ None) × (result.picture ≡ None) }
        ensures place { BeginWith result (finding_text self.now) }
    {
        Words::at(format!(in alloc; "{self}"), self.sentence)
    }

    /// What a list says beside the place: the detail, if there is one, and the sentence.
    fn message(&self, alloc: Global) -> Result<String, AllocError>
        ensures { IfOk result (λ text. string_bytes text ≡ message_text self.now.detail self.now.sentence.now) }
    {
        let sentence = self.sentence;
        let detail = &self.detail;
        if is_bare(detail) {
            String::from_str(alloc, sentence)
        } else {
            format!(in alloc; "{detail}: {sentence}")
        }
    }

    /// A fault of the file, as a list tells it.
    pub(crate) fn told(&self, alloc: Global, fault: Fault) -> Result<FaultRow, AllocError>
        ensures fault { IfOk result (λ told. told.fault ≡ fault) }
        ensures shown { IfOk result (IsShownAs self.now) }
    {
        Ok(FaultRow {
            fault,
            line: self.line,
            id: text_of(alloc, id_value(self.id))?,
            column: column_text(self.column),
            value: text_of(alloc, self.value)?,
            message: self.message(alloc)?,
        })
    }
}
