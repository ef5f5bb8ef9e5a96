//! Lists as CSV.

ghost use Rattle.std.specs.Prelude.{◌≡◌};
ghost use Rattle.tb_lists.specs.Prelude.{kind_word, state_word};
ghost use Rattle.tb_lists.specs.Csv.{yes_or_no};

use crate::batches::BatchLine;
use crate::found::FoundLine;
use crate::revisions::RevisionLine;
use crate::sentences::SentenceLine;
use csv::Writer;
use itoa::Buffer;
use std::alloc::{AllocError, Global};
use std::io::Write;
use std::slice;
use tb_report::{Table, TableRow, put_row, rows_text};

/// The names of columns, as a row.
macro_rules! names {
    ($($name:literal),+) => {
        [$($name.as_bytes()),+]
    };
}

/// Writes a row of these values. The numbers among them are formatted in buffers of these names.
macro_rules! put_values {
    ($rows:ident, $($number:ident)+: $($value:expr),+) => {{
        $(let mut $number = Buffer::new();)+
        put_row($rows, &[$($value.as_bytes()),+])
    }};
}

fn word_of_state(batch: &BatchLine) -> &str
    ensures { result.now ≡ state_word batch.now.state }
{
    batch.state.word()
}

fn word_of_kind(revision: &RevisionLine) -> &str
    ensures { result.now ≡ kind_word revision.now.kind }
{
    revision.kind.word()
}

/// By reference, since texts of one array have one lifetime.
fn word_of_pulled(is_pulled: &bool) -> &str
    ensures { result.now ≡ yes_or_no is_pulled.now }
{
    if *is_pulled { "yes" } else { "no" }
}

/// The header line is `no,name,state,worker,first,sentences,words,pulled,pulled_words`. The worker is empty where nobody
/// works on the batch.
impl TableRow for BatchLine {
    ghost use Rattle.tb_lists.specs.Csv.{batch_fields, batches_head};

    ghost head = { batches_head };

    ghost fields = { batch_fields };

    fn put_head<W: Write + Drop>(rows: &mut Writer<W>) -> Result<(), AllocError> {
        let head = names!(
            "no",
            "name",
            "state",
            "worker",
            "first",
            "sentences",
            "words",
            "pulled",
            "pulled_words"
        );
        put_row(rows, &head)
    }

    fn put<W: Write + Drop>(&self, rows: &mut Writer<W>) -> Result<(), AllocError> {
        put_values!(
            rows, no first sentences words pulled pulled_words:
            no.format(self.no), self.name, word_of_state(self), self.worker,
            first.format(self.first), sentences.format(self.sentences), words.format(self.words),
            pulled.format(self.pulled), pulled_words.format(self.pulled_words)
        )
    }
}

/// The header line is `rev,who,kind,move`.
impl TableRow for RevisionLine {
    ghost use Rattle.tb_lists.specs.Csv.{revision_fields, revisions_head};

    ghost head = { revisions_head };

    ghost fields = { revision_fields };

    fn put_head<W: Write + Drop>(rows: &mut Writer<W>) -> Result<(), AllocError> {
        let head = names!("rev", "who", "kind", "move");
        put_row(rows, &head)
    }

    fn put<W: Write + Drop>(&self, rows: &mut Writer<W>) -> Result<(), AllocError> {
        put_values!(
            rows, rev move_no:
            rev.format(self.rev), self.who, word_of_kind(self), move_no.format(self.move_no)
        )
    }
}

/// The header line is `no,sent_id,rev,who,words,pulled,text`. `pulled` is `yes` or `no`.
impl TableRow for SentenceLine {
    ghost use Rattle.tb_lists.specs.Csv.{sentence_fields, sentences_head};

    ghost head = { sentences_head };

    ghost fields = { sentence_fields };

    fn put_head<W: Write + Drop>(rows: &mut Writer<W>) -> Result<(), AllocError> {
        let head = names!("no", "sent_id", "rev", "who", "words", "pulled", "text");
        put_row(rows, &head)
    }

    fn put<W: Write + Drop>(&self, rows: &mut Writer<W>) -> Result<(), AllocError> {
        put_values!(
            rows, no rev words:
            no.format(self.no), self.sent_id, rev.format(self.rev), self.who,
            words.format(self.words), word_of_pulled(&self.pulled), self.text
        )
    }
}

/// The header line is `no,batch,rev,words,pulled`. `pulled` is `yes` or `no`.
impl TableRow for FoundLine {
    ghost use Rattle.tb_lists.specs.Csv.{found_fields, found_head};

    ghost head = { found_head };

    ghost fields = { found_fields };

    fn put_head<W: Write + Drop>(rows: &mut Writer<W>) -> Result<(), AllocError> {
        let head = names!("no", "batch", "rev", "words", "pulled");
        put_row(rows, &head)
    }

    fn put<W: Write + Drop>(&self, rows: &mut Writer<W>) -> Result<(), AllocError> {
        put_values!(
            rows, no rev words:
            no.format(self.no), self.batch, rev.format(self.rev), words.format(self.words),
            word_of_pulled(&self.pulled)
        )
    }
}

/// What was found by a `sent_id`: a table of one row.
impl Table for FoundLine {
    ghost use Rattle.std.specs.Prelude.{◌≡◌};
    ghost use Rattle.tb_lists.specs.Csv.{found_csv};

    ghost HasCsv = { λ found text. text ≡ found_csv found };

    fn csv_text(&self, alloc: Global) -> Result<Vec<u8>, AllocError> {
        rows_text(alloc, slice::from_ref(self))
    }
}
