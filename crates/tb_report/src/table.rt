//! Tables as CSV (RFC 4180). A table grows in memory and is written whole. Only want of memory stops it before.

ghost use Rattle.std.specs.Prelude.{◌≡◌, ℕ, [], ◌∷◌, Err, IfErr, IfOk, IsOk, List, OnOk, Some, map};
ghost use Rattle.std.specs.Prelude.{OnErr};
ghost use Rattle.std.specs.Io.KnownBytes.{Appends, Keeps};
ghost use Rattle.csv.specs.Writing.{text_written};
ghost use Rattle.tb_conllu.specs.Sunk.{AppendsPart};
ghost use Rattle.tb_report.specs.Csv.{IsBetweenRows, IsRefused, PutsRows, csv_of};

use crate::fault::ReportFault;
use csv::{Writer, WriterBuilder};
use std::alloc::{AllocError, Global};
use std::io::Write;
use tb_conllu::Sink;

/// A kind of rows that tables have.
pub trait TableRow {
    ghost use Rattle.std.specs.Prelude.{ℕ, [], ◌∷◌, List, OnOk};
    ghost use Rattle.tb_report.specs.Csv.{PutsRows};

    // the names of the fields
    ghost head: { List (List ℕ) };

    // the fields of a row
    ghost fields: { Self → List (List ℕ) };

    /// Puts the names of the fields into a table.
    ///
    /// # Errors
    ///
    /// Memory was refused.
    fn put_head<W: Write + Drop>(rows: &mut Writer<W>) -> Result<(), AllocError>
        ensures { OnOk result (PutsRows W.contents rows.old rows.new (head ∷ [])) };

    /// Puts the row into a table.
    ///
    /// # Errors
    ///
    /// Memory was refused.
    fn put<W: Write + Drop>(&self, rows: &mut Writer<W>) -> Result<(), AllocError>
        ensures { OnOk result (PutsRows W.contents rows.old rows.new (fields self.now ∷ [])) };
}

/// What stands as a table of CSV.
pub trait Table {
    ghost use Rattle.std.specs.Prelude.{ℕ, List, IfOk};

    // the text is its CSV
    ghost HasCsv: { Self → List ℕ → Type 0 };

    /// Its CSV: the header line, and a line for each row. Each line ends with LF. A field is quoted only where it must
    /// be.
    ///
    /// # Errors
    ///
    /// Memory was refused.
    fn csv_text(&self, alloc: Global) -> Result<Vec<u8>, AllocError>
        ensures { IfOk result (λ v. HasCsv self.now v.items) };
}

impl<R: TableRow> Table for Vec<R> {
    ghost use Rattle.std.specs.Prelude.{◌≡◌, ◌∷◌, map};
    ghost use Rattle.tb_report.specs.Csv.{csv_of};

    ghost HasCsv = { λ rows text. text ≡ csv_of (R.head ∷ map R.fields rows.items) };

    fn csv_text(&self, alloc: Global) -> Result<Vec<u8>, AllocError> {
        rows_text(alloc, self.as_slice())
    }
}

/// A table without rows.
pub(crate) fn new_rows(alloc: Global) -> Writer<Vec<u8>>
    ensures between { IsBetweenRows result }
    ensures empty { text_written (λ w. Some w.items) result ≡ Some [] }
{
    WriterBuilder::new().from_writer(Vec::new(alloc))
}

/// Puts a row into a table.
///
/// # Errors
///
/// Memory was refused.
pub fn put_row<W: Write + Drop>(rows: &mut Writer<W>, fields: &[&[u8]]) -> Result<(), AllocError>
    ensures { OnOk result (PutsRows W.contents rows.old rows.new (map (λ f. f.now) fields.now ∷ [])) }
{
    match rows.write_fields(fields) {
        Ok(()) => Ok(()),
        Err(_) => Err(AllocError),
    }
}

/// Puts rows into a table, one after the other.
pub(crate) fn put_rows<R: TableRow, W: Write + Drop>(
    rows: &mut Writer<W>,
    more: &[R],
) -> Result<(), AllocError>
    ensures put { OnOk result (PutsRows W.contents rows.old rows.new (map R.fields more.now)) }
    ensures sure { more.now ≡ [] → IsOk result }
{
    for row in more {
        row.put(rows)?;
    }
    Ok(())
}

/// The bytes of the rows.
///
/// # Errors
///
/// Memory was refused.
pub(crate) fn finish(rows: Writer<Vec<u8>>) -> Result<Vec<u8>, AllocError>
    ensures { IfOk result (λ v. Keeps (text_written (λ w. Some w.items) rows) (Some v.items)) }
{
    match rows.into_inner() {
        Ok(text) => Ok(text),
        Err(_) => Err(AllocError),
    }
}

/// The table of these rows: the names of their fields, and then the rows.
///
/// # Errors
///
/// Memory was refused.
pub fn rows_text<R: TableRow>(alloc: Global, rows: &[R]) -> Result<Vec<u8>, AllocError>
    ensures { IfOk result (λ v. v.items ≡ csv_of (R.head ∷ map R.fields rows.now)) }
{
    let mut table = new_rows(alloc);
    R::put_head(&mut table)?;
    put_rows(&mut table, rows)?;
    finish(table)
}

/// Appends a text that is complete.
///
/// # Errors
///
/// `Write`: the sink refused the text, and may hold a first part of it.
fn put_text<S: Sink>(text: &[u8], out: &mut S) -> Result<(), ReportFault>
    ensures written { OnOk result (Appends (S.held out.old) (S.held out.new) text.now) }
    ensures part { OnErr result (AppendsPart (S.held out.old) (S.held out.new) text.now) }
    ensures fault { IfErr result (λ e. e ≡ ReportFault.Write) }
    ensures refused { result ≡ Err ReportFault.Write → IsRefused S.IsRefusal out.new }
{
    match out.put(text) {
        Ok(()) => Ok(()),
        Err(_) => Err(ReportFault::Write),
    }
}

/// Appends a table as CSV.
///
/// # Errors
///
/// - `Memory`: memory was refused, and nothing was written.
/// - `Write`: the sink refused the text, and may hold a first part of it. It never comes where the sink never refuses.
pub fn write_csv<T: Table, S: Sink>(
    alloc: Global,
    table: &T,
    out: &mut S,
) -> Result<(), ReportFault>
    ensures written { OnOk result ((text : List ℕ) × T.HasCsv table.now text
        × Appends (S.held out.old) (S.held out.new) text) }
    ensures memory { IfErr result (λ e. e ≡ ReportFault.Memory → out.new ≡ out.old) }
    ensures refused { result ≡ Err ReportFault.Write → IsRefused S.IsRefusal out.new }
    ensures part { result ≡ Err ReportFault.Write → (text : List ℕ) × T.HasCsv table.now text
        × AppendsPart (S.held out.old) (S.held out.new) text }
{
    let Ok(text) = table.csv_text(alloc) else {
        return Err(ReportFault::Memory);
    };
    put_text(&text, out)
}
