//! The list of faults as CSV.

ghost use Rattle.std.specs.Prelude.{◌≡◌, [], ◌∷◌, IfOk, IsOk, OnOk, false, string_bytes};
ghost use Rattle.tb_report.specs.Csv.{PutsRows};
ghost use Rattle.tb_report.specs.FaultList.{FaultText, faults_csv, last_rows, line_fields, more_fields, rule_fields};

use crate::table::{TableRow, finish, new_rows, put_row, put_rows};
use csv::Writer;
use itoa::Buffer;
use std::alloc::{AllocError, Global};
use std::io::Write;
use std::marker::Model;
use tb_check::Fault;

/// A fault, where it is, and what is wrong there.
#[derive(Drop)]
pub struct FaultRow {
    pub fault: Fault,
    /// The line with the fault, from 1.
    pub line: usize,
    /// The ID of the row at fault; empty where there is none.
    pub id: String,
    /// The name of the column at fault; empty where there is none.
    pub column: &'static str,
    /// What is at fault in it.
    pub value: String,
    /// What is wrong, in words.
    pub message: String,
}

impl Model for FaultRow {
    ghost Value = { FaultText };

    ghost view = { λ x. record {
      fault = x.fault;
      line = x.line;
      id = string_bytes x.id;
      column = x.column.now;
      value = string_bytes x.value;
      message = string_bytes x.message;
    } };
}

/// The message of the last row, where there are more faults.
const MORE: &str = "there are more faults; --most N lists as many as N";

/// Texts of one array have one lifetime.
fn column_of(listed: &FaultRow) -> &str
    ensures { result.now ≡ listed.now.column }
{
    listed.column
}

fn put_line<W: Write + Drop>(
    rows: &mut Writer<W>,
    line: usize,
    code: u8,
    listed: &FaultRow,
) -> Result<(), AllocError>
    ensures { OnOk result (PutsRows W.contents rows.old rows.new (line_fields line code listed.now ∷ [])) }
{
    let mut line_digits = Buffer::new();
    let mut code_digits = Buffer::new();
    put_row(
        rows,
        &[
            line_digits.format(line).as_bytes(),
            code_digits.format(code).as_bytes(),
            "".as_bytes(),
            "".as_bytes(),
            "".as_bytes(),
            listed.id.as_bytes(),
            column_of(listed).as_bytes(),
            listed.value.as_bytes(),
            listed.message.as_bytes(),
        ],
    )
}

fn put_rule<W: Write + Drop>(
    rows: &mut Writer<W>,
    sentence: usize,
    rule: u8,
    row: usize,
    listed: &FaultRow,
) -> Result<(), AllocError>
    ensures { OnOk result (PutsRows W.contents rows.old rows.new (rule_fields sentence rule row listed.now ∷ [])) }
{
    let mut line_digits = Buffer::new();
    let mut sentence_digits = Buffer::new();
    let mut rule_digits = Buffer::new();
    let mut row_digits = Buffer::new();
    put_row(
        rows,
        &[
            line_digits.format(listed.line).as_bytes(),
            "".as_bytes(),
            sentence_digits.format(sentence).as_bytes(),
            rule_digits.format(rule).as_bytes(),
            row_digits.format(row).as_bytes(),
            listed.id.as_bytes(),
            column_of(listed).as_bytes(),
            listed.value.as_bytes(),
            listed.message.as_bytes(),
        ],
    )
}

impl TableRow for FaultRow {
    ghost use Rattle.tb_report.specs.FaultList.{fault_fields, faults_head};

    ghost head = { faults_head };

    ghost fields = { fault_fields };

    fn put_head<W: Write + Drop>(rows: &mut Writer<W>) -> Result<(), AllocError> {
        let head = [
            "line".as_bytes(),
            "code".as_bytes(),
            "sentence".as_bytes(),
            "rule".as_bytes(),
            "row".as_bytes(),
            "id".as_bytes(),
            "column".as_bytes(),
            "value".as_bytes(),
            "message".as_bytes(),
        ];
        put_row(rows, &head)
    }

    fn put<W: Write + Drop>(&self, rows: &mut Writer<W>) -> Result<(), AllocError> {
        match self.fault {
            Fault::Line { line, code } => put_line(rows, line, code, self),
            Fault::Rule {
                sentence,
                rule,
                row,
            } => put_rule(rows, sentence, rule, row, self),
        }
    }
}

fn put_more<W: Write + Drop>(rows: &mut Writer<W>) -> Result<(), AllocError>
    ensures { OnOk result (PutsRows W.contents rows.old rows.new (more_fields ∷ [])) }
{
    let last = [
        "".as_bytes(),
        "".as_bytes(),
        "".as_bytes(),
        "".as_bytes(),
        "".as_bytes(),
        "".as_bytes(),
        "".as_bytes(),
        "".as_bytes(),
        MORE.as_bytes(),
    ];
    put_row(rows, &last)
}

/// Puts the last row, if there are more faults.
fn put_last<W: Write + Drop>(rows: &mut Writer<W>, more: bool) -> Result<(), AllocError>
    ensures put { OnOk result (PutsRows W.contents rows.old rows.new (last_rows more)) }
    ensures sure { more ≡ false → IsOk result }
{
    if more {
        return put_more(rows);
    }
    Ok(())
}

/// A list of faults: the header line `line,code,sentence,rule,row,id,column,value,message` and a row for each fault. A
/// faulty line has a code, and a broken rule a sentence, a rule and a row. If there are more faults, a last row says so.
///
/// # Errors
///
/// No memory is left.
pub fn faults_text(alloc: Global, faults: &[FaultRow], more: bool) -> Result<Vec<u8>, AllocError>
    ensures { IfOk result (λ v. v.items ≡ faults_csv more faults.now) }
{
    let mut rows = new_rows(alloc);
    FaultRow::put_head(&mut rows)?;
    put_rows(&mut rows, faults)?;
    put_last(&mut rows, more)?;
    finish(rows)
}
