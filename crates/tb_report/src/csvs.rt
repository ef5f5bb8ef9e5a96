//! Frequency tables, totals and moves as CSV.

ghost use Rattle.std.specs.Prelude.{◌≡◌, [], ◌∷◌, IsOk, OnOk, map};
ghost use Rattle.tb_core.specs.Words.{kind_word, state_word};
ghost use Rattle.tb_report.specs.Csv.{PutsRows, freq_head, from_word, totals_fields};

use crate::freq::{Freq, Rank};
use crate::table::{Table, TableRow, finish, new_rows, put_row, rows_text};
use csv::Writer;
use itoa::Buffer;
use std::alloc::{AllocError, Global};
use std::cmp::Reverse;
use std::io::Write;
use tb_core::{Move, State, Totals};

impl<'a> TableRow for Rank<'a> {
    ghost use Rattle.tb_report.specs.Csv.{freq_fields, freq_head};
    ghost use Rattle.tb_report.specs.Kept.{ranked_row};

    ghost head = { freq_head };

    ghost fields = { λ rank. freq_fields (ranked_row rank) };

    fn put_head<W: Write + Drop>(rows: &mut Writer<W>) -> Result<(), AllocError>
        ensures { OnOk result (PutsRows W.contents rows.old rows.new (freq_head ∷ [])) }
    {
        put_row(rows, &["key".as_bytes(), "count".as_bytes()])
    }

    fn put<W: Write + Drop>(&self, rows: &mut Writer<W>) -> Result<(), AllocError> {
        let (Reverse(count), key) = *self;
        let mut digits = Buffer::new();
        put_row(rows, &[key.as_bytes(), digits.format(count).as_bytes()])
    }
}

impl Table for Freq {
    ghost use Rattle.std.specs.Prelude.{◌≡◌, List};
    ghost use Rattle.tb_report.specs.Csv.{freq_csv};
    ghost use Rattle.tb_report.specs.Tables.{IsRankingOf, Row};

    ghost HasCsv = { λ table text. (rows : List Row) × IsRankingOf table rows × (text ≡ freq_csv rows) };

    /// The header line `key,count`, and a line for each key. The greatest count comes first, and keys with the same count
    /// are in the order of their bytes.
    fn csv_text(&self, alloc: Global) -> Result<Vec<u8>, AllocError> {
        let ranks = self.ranking()?;
        rows_text(alloc, &ranks)
    }
}

fn put_state<W: Write + Drop>(
    rows: &mut Writer<W>,
    totals: &Totals,
    state: State,
) -> Result<(), AllocError>
    ensures { OnOk result (PutsRows W.contents rows.old rows.new (totals_fields totals.now state ∷ [])) }
{
    let place = state.place();
    let mut sentences = Buffer::new();
    let mut words = Buffer::new();
    put_row(
        rows,
        &[
            state.word().as_bytes(),
            sentences.format(totals.sentences[place]).as_bytes(),
            words.format(totals.words[place]).as_bytes(),
        ],
    )
}

fn put_states<W: Write + Drop>(
    rows: &mut Writer<W>,
    totals: &Totals,
    states: &[State],
) -> Result<(), AllocError>
    ensures put { OnOk result (PutsRows W.contents rows.old rows.new (map (totals_fields totals.now) states.now)) }
    ensures sure { states.now ≡ [] → IsOk result }
{
    for state in states {
        put_state(rows, totals, *state)?;
    }
    Ok(())
}

impl Table for Totals {
    ghost use Rattle.std.specs.Prelude.{◌≡◌};
    ghost use Rattle.tb_report.specs.Csv.{totals_csv};

    ghost HasCsv = { λ totals text. text ≡ totals_csv totals };

    /// The header line `state,sentences,words` and a line for each of the six states.
    fn csv_text(&self, alloc: Global) -> Result<Vec<u8>, AllocError> {
        let mut rows = new_rows(alloc);
        let head = [
            "state".as_bytes(),
            "sentences".as_bytes(),
            "words".as_bytes(),
        ];
        put_row(&mut rows, &head)?;
        let states = [
            State::Opened,
            State::Assigned,
            State::Submitted,
            State::Adjudicated,
            State::Released,
            State::Withdrawn,
        ];
        put_states(&mut rows, self, &states)?;
        finish(rows)
    }
}

fn word_of_kind(step: &Move) -> &str
    ensures { result.now ≡ kind_word step.now.kind }
{
    step.kind.word()
}

/// The word for the state that the sentences left.
fn word_from(step: &Move) -> &str
    ensures { result.now ≡ from_word step.now.from }
{
    match step.from {
        None => "none",
        Some(state) => state.word(),
    }
}

/// The word for the state that the sentences came to.
fn word_to(step: &Move) -> &str
    ensures { result.now ≡ state_word step.now.to }
{
    step.to.word()
}

/// The header line is `no,kind,batch,sentence,from,to,sentences,words_out,words_in,who`. The sentence is 0 where a whole
/// batch moves. `from` is `none` where the sentences had no state.
impl TableRow for Move {
    ghost use Rattle.tb_report.specs.Csv.{move_fields, moves_head};

    ghost head = { moves_head };

    ghost fields = { move_fields };

    fn put_head<W: Write + Drop>(rows: &mut Writer<W>) -> Result<(), AllocError> {
        let head = [
            "no".as_bytes(),
            "kind".as_bytes(),
            "batch".as_bytes(),
            "sentence".as_bytes(),
            "from".as_bytes(),
            "to".as_bytes(),
            "sentences".as_bytes(),
            "words_out".as_bytes(),
            "words_in".as_bytes(),
            "who".as_bytes(),
        ];
        put_row(rows, &head)
    }

    fn put<W: Write + Drop>(&self, rows: &mut Writer<W>) -> Result<(), AllocError> {
        let mut no = Buffer::new();
        let mut batch = Buffer::new();
        let mut sent = Buffer::new();
        let mut sentences = Buffer::new();
        let mut words_out = Buffer::new();
        let mut words_in = Buffer::new();
        put_row(
            rows,
            &[
                no.format(self.no).as_bytes(),
                word_of_kind(self).as_bytes(),
                batch.format(self.batch).as_bytes(),
                sent.format(self.sent).as_bytes(),
                word_from(self).as_bytes(),
                word_to(self).as_bytes(),
                sentences.format(self.sentences).as_bytes(),
                words_out.format(self.words_out).as_bytes(),
                words_in.format(self.words_in).as_bytes(),
                self.who.as_bytes(),
            ],
        )
    }
}
