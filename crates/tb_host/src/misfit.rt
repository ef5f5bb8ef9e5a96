//! Which row is wrong first in a file whose rows are not those of a desk, for the words about it. This decides nothing:
//! it reads the tables once more, after the file was refused.

ghost use Rattle.std.specs.Prelude.{◌≡◌, ◌≢◌, ◌⊎◌, ◌↔◌, ◌≤◌, ◌<◌, ◌++◌, ◌+◌, [], ◌∷◌, length, map};
ghost use Rattle.std.specs.Prelude.{IfErr, IfOk, IfSome, IsErrAnd, IsOk, IsTrue, MatchOption, MatchResult};
ghost use Rattle.std.specs.Prelude.{ℕ, Bool, List, None, Some, pos, slice_index, slice_index_or, string_bytes};
ghost use Rattle.std.specs.List.{AllWithin, HoldsAt};
ghost use Rattle.sqlite.specs.Order.{column};
ghost use Rattle.sqlite.specs.declared.types.Value.TheVariants.{Int};
ghost use Rattle.std.specs.Prelude.{Err as ErrOf, Ok as Read, false};
ghost use Rattle.tb_core.specs.Machine.{Sentence};
ghost use Rattle.tb_core.specs.Names.{is_name};
ghost use Rattle.tb_tables.specs.Values.{batch_of};
ghost use Rattle.tb_tables.specs.declared.rows.RevisionRow.{RevisionRow as AnyRevisionRow};
ghost use Rattle.tb_tables.specs.declared.rows.TotalRow.{TotalRow as AnyTotalRow};
ghost use Rattle.tb_refine.specs.DeskTables.{batch_record};
ghost use Rattle.tb_replay.specs.Summaries.{entries_of, entry_of};
ghost use Rattle.tb_host.specs.Misfits.{IsStopOf, IsUnreadable, first_pulled, first_revised, found_by};
ghost use Rattle.tb_host.specs.Misfits.{query_of_numbers, smaller, stop_by, table_name};
ghost use Rattle.tb_host.specs.Misfits.{AreRight, HasNumber, IsFirstOff};
ghost use Rattle.tb_host.specs.Looked.{AreAllRead, AreRightTotals, EndsIf, FindsOrFails, HasFailed, HasItsRows};
ghost use Rattle.tb_host.specs.Looked.{HasSumsAt, IsBatchRow, IsFirstInBatches, IsFirstInMoves, IsFirstInSentences};
ghost use Rattle.tb_host.specs.Looked.{IsFirstInSums, IsFirstStop, IsMoveRow, IsRowOff, IsSentenceRow, IsUnread, IsWrongSentence};
ghost use Rattle.tb_host.specs.Looked.{IsWrongTotal, Said, Takes, stop_in, stop_of_unfit};

use sqlite::types::ValueRef;
use sqlite::{Alter, Connection, Error, Row};
use std::alloc::{AllocError, AllocFailed, Global};
use std::fmt::{self, Display, Formatter};
use std::slice;
use tb_core::{Fault, Totals, good_name};
use tb_reads::ReadError;
use tb_refine::{read_moves, state_numbered};
use tb_replay::{SentenceSummary, totals_of};
use tb_tables::{BatchRow, MoveRow, RevisionRow, SentenceRow, TotalRow, has_desk_schema};
use tb_verify::{Unfit, entry_in};

/// A table whose rows are numbered from 1.
#[derive(Clone, Copy)]
pub enum Table {
    Batches,
    Sentences,
    Moves,
    Totals,
}

impl Table {
    fn name(self) -> &'static str
        ensures { result.now ≡ table_name self }
    {
        match self {
            Table::Batches => "batches",
            Table::Sentences => "sentences",
            Table::Moves => "moves",
            Table::Totals => "totals",
        }
    }

    /// The query for the numbers of its rows.
    fn numbers(self) -> &'static str
        ensures { result.now ≡ query_of_numbers self }
    {
        match self {
            Table::Batches => "SELECT no FROM batches ORDER BY no",
            Table::Sentences => "SELECT no FROM sentences ORDER BY no",
            Table::Moves => "SELECT no FROM moves ORDER BY no",
            Table::Totals => "SELECT state FROM totals ORDER BY state",
        }
    }
}

/// What is wrong first with the rows of a file.
#[derive(Clone, Copy)]
pub enum Misfit {
    /// The tables, columns and indexes are not those of a desk.
    Tables,
    /// The table `meta` has something else than one row with the number 2.
    Version,
    /// A table has no row with this number.
    Missing(Table, u64),
    /// The row with this number.
    Row(Table, u64),
    /// The values of a table are not of their kind, or too large.
    Values(&'static str),
    /// The sentence with this number: its row, its revisions, or whether it is pulled.
    Sentence(u64),
    /// Each row may be right by itself, but the moves do not lead to them.
    Moves,
}

impl Display for Misfit {
    ghost use Rattle.std.specs.Prelude.{Some};
    ghost use Rattle.tb_host.specs.Misfits.{misfit_text};

    ghost output = { λ misfit. Some (misfit_text misfit) };

    fn fmt<W: fmt::Write>(&self, f: &mut Formatter<W>) -> fmt::Result {
        match self {
            Misfit::Tables => { f.write_str("other tables, columns or indexes than a desk's") },
            Misfit::Version => f.write_str("table meta"),
            Misfit::Missing(table, number) => {
                write!(f, "table {} has no row {number}", table.name())
            }
            Misfit::Row(table, number) => write!(f, "table {}, row {number}", table.name()),
            Misfit::Values(table) => write!(f, "a value in table {table}"),
            Misfit::Sentence(number) => write!(
                f,
                "sentence {number} in table sentences, revisions or pulled"
            ),
            Misfit::Moves => f.write_str("the moves do not lead to the other tables"),
        }
    }
}

/// Why the look ends early.
#[derive(Drop)]
enum Stop {
    Found(Misfit),
    /// Memory or the store failed.
    Failed,
}

impl From<AllocError> for Stop {
    ghost use Rattle.std.specs.Prelude.{◌≡◌};
    ghost use Rattle.tb_host.specs.declared.misfit.Stop.TheVariants.{Failed};

    ghost from_gives = { λ _ stop. stop ≡ Failed };

    fn from(_: AllocError) -> Stop {
        Stop::Failed
    }
}

impl<T: Drop> From<AllocFailed<T>> for Stop {
    ghost use Rattle.std.specs.Prelude.{◌≡◌};
    ghost use Rattle.tb_host.specs.declared.misfit.Stop.TheVariants.{Failed};

    ghost from_gives = { λ _ stop. stop ≡ Failed };

    fn from(_: AllocFailed<T>) -> Stop {
        Stop::Failed
    }
}

/// The tables of a file that is no desk. What is made of their rows is proved over any, so over those of which it is
/// kept what each says.
trait Tables {
    ghost use Rattle.std.specs.Prelude.{◌≡◌, IfSome, IsTrue, MatchResult, Option};
    ghost use Rattle.tb_host.specs.Looked.{Said, Tells};

    // what each table says, where that is kept
    ghost says: { Self → Option Said };

    /// Whether the tables, columns and indexes are those of a desk.
    fn has_schema(&self) -> bool
        ensures { IfSome (says self.now) (λ said. result ≡ said.has_schema) };

    fn versions(&mut self, alloc: Global) -> Result<Vec<u32>, ReadError>
        ensures told { IfSome (says self.old) (λ said. Tells said.may_fail said.versions result
            (λ rows. rows.items)) }
        ensures still { says self.new ≡ says self.old };

    fn batches(&mut self, alloc: Global) -> Result<Vec<BatchRow>, ReadError>
        ensures told { IfSome (says self.old) (λ said. Tells said.may_fail said.batches result
            (λ rows. rows.items)) }
        ensures still { says self.new ≡ says self.old };

    fn sentences(&mut self, alloc: Global) -> Result<Vec<SentenceRow>, ReadError>
        ensures told { IfSome (says self.old) (λ said. Tells said.may_fail said.sentences result
            (λ rows. rows.items)) }
        ensures still { says self.new ≡ says self.old };

    fn revisions(&mut self, alloc: Global) -> Result<Vec<RevisionRow>, ReadError>
        ensures told { IfSome (says self.old) (λ said. Tells said.may_fail said.revisions result
            (λ rows. rows.items)) }
        ensures still { says self.new ≡ says self.old };

    fn pulled(&mut self, alloc: Global) -> Result<Vec<u32>, ReadError>
        ensures told { IfSome (says self.old) (λ said. Tells said.may_fail said.pulled result
            (λ rows. rows.items)) }
        ensures still { says self.new ≡ says self.old };

    fn moves(&mut self, alloc: Global) -> Result<Vec<MoveRow>, ReadError>
        ensures told { IfSome (says self.old) (λ said. Tells said.may_fail said.moves result
            (λ rows. rows.items)) }
        ensures still { says self.new ≡ says self.old };

    fn totals(&mut self, alloc: Global) -> Result<Vec<TotalRow>, ReadError>
        ensures told { IfSome (says self.old) (λ said. Tells said.may_fail said.totals result
            (λ rows. rows.items)) }
        ensures still { says self.new ≡ says self.old };

    /// The rows with the numbers of a table's rows alone.
    fn numbers(&mut self, table: Table) -> Result<Vec<Row>, Error>
        ensures told { IfSome (says self.old) (λ said. MatchResult result (λ rows. rows.items ≡ said.numbers table)
            (λ _. IsTrue said.may_fail)) }
        ensures still { says self.new ≡ says self.old };
}

impl<S: Alter> Tables for Connection<S> {
    ghost use Rattle.std.specs.Prelude.{None};

    ghost says = { λ _. None };

    fn has_schema(&self) -> bool {
        has_desk_schema(self)
    }

    fn versions(&mut self, alloc: Global) -> Result<Vec<u32>, ReadError> {
        tb_reads::versions(alloc, self)
    }

    fn batches(&mut self, alloc: Global) -> Result<Vec<BatchRow>, ReadError> {
        tb_reads::batches(alloc, self)
    }

    fn sentences(&mut self, alloc: Global) -> Result<Vec<SentenceRow>, ReadError> {
        tb_reads::sentences(alloc, self)
    }

    fn revisions(&mut self, alloc: Global) -> Result<Vec<RevisionRow>, ReadError> {
        tb_reads::revisions(alloc, self)
    }

    fn pulled(&mut self, alloc: Global) -> Result<Vec<u32>, ReadError> {
        tb_reads::pulled(alloc, self)
    }

    fn moves(&mut self, alloc: Global) -> Result<Vec<MoveRow>, ReadError> {
        tb_reads::moves(alloc, self)
    }

    fn totals(&mut self, alloc: Global) -> Result<Vec<TotalRow>, ReadError> {
        tb_reads::totals(alloc, self)
    }

    fn numbers(&mut self, table: Table) -> Result<Vec<Row>, Error> {
        self.query_all(table.numbers(), &[])
    }
}

/// The number in the first column, if it is one.
fn number_in(row: &Row) -> Option<u64>
    ensures some { IfSome result (λ n. column row.now 0 ≡ Int (pos n)) }
    ensures none { result ≡ None → (n : ℕ) → 0 < length row.now → column row.now 0 ≢ Int (pos n) }
{
    match row.get_ref(0) {
        Ok(ValueRef::Int(number)) => match u64::try_from(number) {
            Ok(number) => Some(number),
            Err(_) => None,
        },
        _ => None,
    }
}

/// Whether a row has this number.
fn has_number(row: &Row, number: u64) -> bool
    ensures { IsTrue result ↔ HasNumber number row.now }
{
    match number_in(row) {
        Some(found) => found == number,
        None => false,
    }
}

/// The first number from 1 that no row has.
fn first_gap(rows: &[Row]) -> Option<u64>
    ensures { MatchOption result (AreRight HasNumber rows.now (length rows.now)) (IsFirstOff HasNumber rows.now) }
{
    for at in 0..rows.len() {
        let number = at as u64 + 1;
        if !has_number(&rows[at], number) {
            return Some(number);
        }
    }
    None
}

/// What is wrong with a table that cannot be read: a row is missing, or a value is of another kind.
fn misfit_of<T: Tables>(tables: &mut T, table: Table) -> Stop
    ensures unreadable { IsUnreadable table result }
    ensures first { (said : Said) → T.says tables.old ≡ Some said
        → EndsIf (IsTrue said.may_fail) (IsUnread table (said.numbers table)) result }
    ensures still { T.says tables.new ≡ T.says tables.old }
{
    match tables.numbers(table) {
        Ok(rows) => match first_gap(rows.as_slice()) {
            Some(number) => Stop::Found(Misfit::Missing(table, number)),
            None => Stop::Found(Misfit::Values(table.name())),
        },
        Err(_) => Stop::Failed,
    }
}

/// The rows of a table whose rows are numbered.
fn rows_of<T: Tables, A>(
    tables: &mut T,
    table: Table,
    read: Result<Vec<A>, ReadError>,
) -> Result<Vec<A>, Stop>
    ensures rows { MatchResult read (λ rows. result ≡ Read rows) (λ e. IsErrAnd result (IsStopOf e table)) }
    ensures first { (said : Said) → T.says tables.old ≡ Some said
        → IfErr result (EndsIf (IsTrue said.may_fail ⊎ HasFailed read) (IsUnread table (said.numbers table))) }
    ensures still { T.says tables.new ≡ T.says tables.old }
{
    match read {
        Ok(rows) => Ok(rows),
        Err(ReadError::Form) => Err(misfit_of(tables, table)),
        Err(ReadError::Store(_)) => Err(Stop::Failed),
    }
}

/// The rows of a table whose rows have other keys.
fn keyed_rows<T>(read: Result<Vec<T>, ReadError>, table: &'static str) -> Result<Vec<T>, Stop>
    ensures { MatchResult read (λ rows. result ≡ Read rows)
        (λ e. result ≡ ErrOf (stop_by e (Stop.Found (Misfit.Values table.entry)))) }
{
    match read {
        Ok(rows) => Ok(rows),
        Err(ReadError::Form) => Err(Stop::Found(Misfit::Values(table))),
        Err(ReadError::Store(_)) => Err(Stop::Failed),
    }
}

fn look_at_version(versions: &[u32]) -> Result<(), Stop>
    ensures right { IsOk result ↔ (versions.now ≡ 2 ∷ []) }
    ensures wrong { IfErr result (λ stop. stop ≡ Stop.Found Misfit.Version) }
{
    match versions {
        [2] => Ok(()),
        _ => Err(Stop::Found(Misfit::Version)),
    }
}

fn has_good_name(row: &BatchRow) -> bool
    ensures { result ≡ is_name (string_bytes row.now.name) }
{
    good_name(row.name.as_str())
}

/// The batch of a row, if it has a good name and a state.
fn batch_in(row: &BatchRow) -> Option<tb_replay::BatchRow<'_>>
    ensures record { IfSome result (λ batch. batch_record batch ≡ batch_of row.now) }
    ensures named { IfSome result (λ _. IsTrue (is_name (string_bytes row.now.name))) }
    ensures none { result ≡ None → ¬ IsBatchRow row.now }
{
    if !has_good_name(row) {
        return None;
    }
    match state_numbered(row.state) {
        Some(state) => Some(tb_replay::BatchRow {
            name: row.name.as_str(),
            state,
            worker: row.worker.as_str(),
        }),
        None => None,
    }
}

/// The batches, each with a good name and a state.
fn batches_in<'a>(alloc: Global, rows: &'a [BatchRow]) -> Result<Vec<tb_replay::BatchRow<'a>>, Stop>
    ensures right { IfOk result (λ v. (map batch_record v.items ≡ map batch_of rows.now)
        × AreRight (λ _. IsBatchRow) rows.now (length rows.now)) }
    ensures wrong { IfErr result (IsRowOff Table.Batches (λ _. IsBatchRow) rows.now) }
{
    let mut batches = Vec::new(alloc);
    for at in 0..rows.len() {
        match batch_in(&rows[at]) {
            Some(batch) => batches.push(batch)?,
            None => return Err(Stop::Found(Misfit::Row(Table::Batches, at as u64 + 1))),
        }
    }
    Ok(batches)
}

/// How many of the first rows are of the sentence with this number.
fn own_rows(revisions: &[RevisionRow], number: u64) -> usize
    ensures bound { result ≤ length revisions.now }
    ensures own { AllWithin (λ row. row.sent ≡ number) revisions.now 0 result }
    ensures end { result < length revisions.now → HoldsAt (λ row. row.sent ≢ number) revisions.now result }
{
    for at in 0..revisions.len() {
        if u64::from(revisions[at].sent) != number {
            return at;
        }
    }
    revisions.len()
}

/// The sentence of the first of these revisions.
fn first_revised(revisions: &[RevisionRow]) -> Option<u32>
    ensures { result ≡ first_revised revisions.now }
{
    match revisions {
        [row, ..] => Some(row.sent),
        [] => None,
    }
}

/// The first of these sentences.
fn first_pulled(pulled: &[u32]) -> Option<u32>
    ensures { result ≡ first_pulled pulled.now }
{
    match pulled {
        [number, ..] => Some(*number),
        [] => None,
    }
}

/// The smaller number, where there are two.
fn smaller(a: Option<u32>, b: Option<u32>) -> Option<u64>
    ensures { result ≡ smaller a b }
{
    match (a, b) {
        (Some(a), Some(b)) => Some(u64::from(a.min(b))),
        (Some(a), None) => Some(u64::from(a)),
        (None, Some(b)) => Some(u64::from(b)),
        (None, None) => None,
    }
}

/// What is left of the tables of revisions and of pulled sentences.
#[derive(Drop)]
struct Rest<'a> {
    revisions: &'a [RevisionRow],
    pulled: &'a [u32],
}

impl<'a> Rest<'a> {
    /// Takes the revisions of the sentence with this number.
    fn revisions_of(&mut self, number: u64) -> &'a [RevisionRow]
        ensures cut { self.old.revisions.now ≡ result.now ++ self.new.revisions.now }
        ensures own { AllWithin (λ row. row.sent ≡ number) self.old.revisions.now 0 (length result.now) }
        ensures end { length result.now < length self.old.revisions.now
            → HoldsAt (λ row. row.sent ≢ number) self.old.revisions.now (length result.now) }
        ensures pulled { self.new.pulled ≡ self.old.pulled }
    {
        let count = own_rows(self.revisions, number);
        match self.revisions.split_at_checked(count) {
            Some((own, later)) => {
                self.revisions = later;
                own
            }
            None => &[],
        }
    }

    /// Whether the sentence with this number is pulled. Its number is taken.
    fn takes_pulled(&mut self, number: u64) -> bool
        ensures taken { IsTrue result → self.old.pulled.now ≡ number ∷ self.new.pulled.now }
        ensures other { result ≡ false → (first_pulled self.old.pulled.now ≢ Some number)
            × (self.new.pulled ≡ self.old.pulled) }
        ensures revisions { self.new.revisions ≡ self.old.revisions }
    {
        match self.pulled.split_first() {
            Some((first, later)) if u64::from(*first) == number => {
                self.pulled = later;
                true
            }
            _ => false,
        }
    }

    /// The first sentence that has rows here, but none in the table of sentences.
    fn first(&self) -> Option<u64>
        ensures { result ≡ smaller (first_revised self.now.revisions.now) (first_pulled self.now.pulled.now) }
    {
        smaller(first_revised(self.revisions), first_pulled(self.pulled))
    }
}

/// Whether a sentence is in a batch that is there, and has as many revisions as its row says.
fn has_its_rows(row: &SentenceRow, batches: usize, revisions: usize) -> bool
    ensures { IsTrue result ↔ (row.now.batch ≢ 0) × (row.now.batch ≤ batches) × (row.now.rev ≡ revisions) }
{
    row.batch != 0 && row.batch as usize <= batches && row.rev as usize == revisions
}

/// Why the look ends at the row of a sentence that cannot be read back.
fn stop_of_unfit(unfit: Unfit, number: u64) -> Stop
    ensures { result ≡ stop_of_unfit unfit number }
{
    match unfit {
        Unfit::NotADesk => Stop::Found(Misfit::Sentence(number)),
        Unfit::Memory => Stop::Failed,
    }
}

/// The sentence with this number, read back from its row and from what it takes of the rest.
fn next_sentence<'a>(
    alloc: Global,
    batches: usize,
    number: u64,
    row: &SentenceRow,
    rest: &mut Rest<'a>,
) -> Result<SentenceSummary<'a>, Stop>
    ensures { (own : List AnyRevisionRow) × (is_pulled : Bool)
        × Takes number own is_pulled rest.old.revisions.now rest.old.pulled.now rest.new.revisions.now
        rest.new.pulled.now × MatchResult result
        (λ entry. (x : Sentence) × IsSentenceRow batches number row.now own is_pulled x × (entry ≡ entry_of x))
        (FindsOrFails (HasItsRows batches row.now own) (λ misfit. (misfit ≡ Misfit.Sentence number)
        × ((x : Sentence) → ¬ IsSentenceRow batches number row.now own is_pulled x))) }
{
    let own = rest.revisions_of(number);
    let pulled = rest.takes_pulled(number);
    if !has_its_rows(row, batches, own.len()) {
        return Err(Stop::Found(Misfit::Sentence(number)));
    }
    match entry_in(alloc, number, row, pulled, own) {
        Ok(sentence) => Ok(sentence),
        Err(unfit) => Err(stop_of_unfit(unfit, number)),
    }
}

/// The sentences, each read back from its row and its revisions.
fn sentences_in<'a>(
    alloc: Global,
    batches: usize,
    rows: &[SentenceRow],
    revisions: &'a [RevisionRow],
    pulled: &'a [u32],
) -> Result<Vec<SentenceSummary<'a>>, Stop>
    ensures right { IfOk result (λ v. (xs : List Sentence)
        × AreAllRead batches rows.now revisions.now pulled.now xs × (v.items ≡ entries_of xs)) }
    ensures wrong { IfErr result (IsWrongSentence batches rows.now revisions.now pulled.now) }
{
    let mut rest = Rest { revisions, pulled };
    let mut sentences: Vec<SentenceSummary<'a>> = Vec::new(alloc);
    for at in 0..rows.len() {
        let sentence = next_sentence(alloc, batches, at as u64 + 1, &rows[at], &mut rest)?;
        sentences.push(sentence)?;
    }
    match rest.first() {
        Some(number) => Err(Stop::Found(Misfit::Sentence(number))),
        None => Ok(sentences),
    }
}

/// Why the look ends at the row of a move that cannot be read.
fn stop_of_fault(fault: Fault, number: u64) -> Stop
    ensures found { FindsOrFails (fault ≢ Fault.NotADesk) (λ misfit. (misfit ≡ Misfit.Row Table.Moves number)
        × (fault ≡ Fault.NotADesk)) result }
    ensures sure { fault ≡ Fault.NotADesk → result ≡ Stop.Found (Misfit.Row Table.Moves number) }
{
    if fault != Fault::NotADesk {
        return Stop::Failed;
    }
    Stop::Found(Misfit::Row(Table::Moves, number))
}

/// Whether the row is that of a move.
fn read_move(alloc: Global, row: &MoveRow) -> Result<(), Fault>
    ensures right { IfOk result (λ _. IsMoveRow row.now) }
    ensures wrong { IfErr result (λ fault. fault ≡ Fault.NotADesk → ¬ IsMoveRow row.now) }
    ensures sure { (¬ IsMoveRow row.now) → result ≡ ErrOf Fault.NotADesk }
{
    read_moves(alloc, slice::from_ref(row))?;
    Ok(())
}

/// Looks at the row with this number.
fn look_at_move(alloc: Global, row: &MoveRow, number: u64) -> Result<(), Stop>
    ensures right { IfOk result (λ _. IsMoveRow row.now) }
    ensures wrong { IfErr result (FindsOrFails (¬ ¬ IsMoveRow row.now)
        (λ misfit. (misfit ≡ Misfit.Row Table.Moves number) × ¬ IsMoveRow row.now)) }
{
    match read_move(alloc, row) {
        Ok(()) => Ok(()),
        Err(fault) => Err(stop_of_fault(fault, number)),
    }
}

/// The first move whose row no move has.
fn look_at_moves(alloc: Global, rows: &[MoveRow]) -> Result<(), Stop>
    ensures right { IfOk result (λ _. AreRight (λ _. IsMoveRow) rows.now (length rows.now)) }
    ensures wrong { IfErr result (IsRowOff Table.Moves (λ _. IsMoveRow) rows.now) }
{
    for at in 0..rows.len() {
        look_at_move(alloc, &rows[at], at as u64 + 1)?;
    }
    Ok(())
}

fn is_same(sum: u64, count: u32) -> bool
    ensures { IsTrue result ↔ (sum ≡ count) }
{
    sum == u64::from(count)
}

/// Whether the sum at this place is this one.
fn is_sum(sums: &[u64], at: usize, count: u32) -> bool
    ensures { IsTrue result ↔ (at < length sums.now) × (slice_index sums.now at ≡ count) }
{
    match sums.get(at) {
        Some(sum) => is_same(*sum, count),
        None => false,
    }
}

/// Whether the row has the sums at this place.
fn has_sums(row: &TotalRow, at: usize, totals: &Totals) -> bool
    ensures { IsTrue result ↔ HasSumsAt totals.now at row.now }
{
    is_sum(&totals.sentences, at, row.sentences) && is_sum(&totals.words, at, row.words)
}

/// Whether the row at this place has the sums there.
fn has_sums_at(rows: &[TotalRow], at: usize, totals: &Totals) -> bool
    ensures yes { IsTrue result → (d : AnyTotalRow) → HasSumsAt totals.now at (slice_index_or rows.now at d) }
    ensures no { result ≡ false → at < length rows.now → (d : AnyTotalRow)
        → ¬ HasSumsAt totals.now at (slice_index_or rows.now at d) }
{
    match rows.get(at) {
        Some(row) => has_sums(row, at, totals),
        None => false,
    }
}

/// Whether each state has a row.
fn has_six(rows: &[TotalRow]) -> bool
    ensures yes { IsTrue result → 6 ≤ length rows.now }
    ensures no { result ≡ false → length rows.now < 6 }
{
    rows.len() >= 6
}

/// The first row of the totals that does not have the sums of its state.
fn look_at_totals(rows: &[TotalRow], totals: &Totals) -> Result<(), Stop>
    ensures right { IfOk result (λ _. AreRightTotals totals.now rows.now) }
    ensures wrong { IfErr result (IsWrongTotal totals.now rows.now) }
{
    for at in 0..rows.len() {
        if !has_sums_at(rows, at, totals) {
            return Err(Stop::Found(Misfit::Row(Table::Totals, at as u64 + 1)));
        }
    }
    if !has_six(rows) {
        return Err(Stop::Found(Misfit::Missing(Table::Totals, rows.len() as u64 + 1)));
    }
    Ok(())
}

/// Looks at the totals of these batches and sentences. Where each row is right by itself, the moves do not lead to the
/// others.
fn look_at_sums(
    rows: &[TotalRow],
    batches: &[tb_replay::BatchRow<'_>],
    sentences: &[SentenceSummary<'_>],
) -> Stop
    ensures { (xs : List Sentence) → sentences.now ≡ entries_of xs
        → IsFirstInSums batches.now xs rows.now result }
{
    match totals_of(batches, sentences) {
        Some(sums) => match look_at_totals(rows, &sums) {
            Ok(()) => Stop::Found(Misfit::Moves),
            Err(stop) => stop,
        },
        None => Stop::Found(Misfit::Moves),
    }
}

/// Looks at the tables of moves and of totals, where these are the batches and the sentences.
fn look_from_moves<T: Tables>(
    alloc: Global,
    tables: &mut T,
    batches: &[tb_replay::BatchRow<'_>],
    sentences: &[SentenceSummary<'_>],
) -> Result<(), Stop>
    ensures { (said : Said) → T.says tables.old ≡ Some said → (xs : List Sentence)
        → sentences.now ≡ entries_of xs
        → IsErrAnd result (EndsIf (IsTrue said.may_fail) (IsFirstInMoves said batches.now xs)) }
{
    let read = tables.moves(alloc);
    let moves = rows_of(tables, Table::Moves, read)?;
    look_at_moves(alloc, moves.as_slice())?;
    let read = tables.totals(alloc);
    let totals = rows_of(tables, Table::Totals, read)?;
    Err(look_at_sums(totals.as_slice(), batches, sentences))
}

/// Looks at the tables from that of the sentences on, where these are the batches.
fn look_from_sentences<T: Tables>(
    alloc: Global,
    tables: &mut T,
    batches: &[tb_replay::BatchRow<'_>],
) -> Result<(), Stop>
    ensures { (said : Said) → T.says tables.old ≡ Some said
        → IsErrAnd result (EndsIf (IsTrue said.may_fail) (IsFirstInSentences said batches.now)) }
{
    let read = tables.sentences(alloc);
    let rows = rows_of(tables, Table::Sentences, read)?;
    let read = tables.revisions(alloc);
    let revisions = keyed_rows(read, "revisions")?;
    let read = tables.pulled(alloc);
    let pulled = keyed_rows(read, "pulled")?;
    let sentences = sentences_in(
        alloc,
        batches.len(),
        rows.as_slice(),
        revisions.as_slice(),
        pulled.as_slice(),
    )?;
    look_from_moves(alloc, tables, batches, sentences.as_slice())
}

/// Looks at the tables from that of the batches on.
fn look_from_batches<T: Tables>(alloc: Global, tables: &mut T) -> Result<(), Stop>
    ensures { (said : Said) → T.says tables.old ≡ Some said
        → IsErrAnd result (EndsIf (IsTrue said.may_fail) (IsFirstInBatches said)) }
{
    let read = tables.batches(alloc);
    let rows = rows_of(tables, Table::Batches, read)?;
    let batches = batches_in(alloc, rows.as_slice())?;
    look_from_sentences(alloc, tables, batches.as_slice())
}

/// Looks at all tables in turn. Where each row is right by itself, the moves do not lead to the others.
fn look<T: Tables>(alloc: Global, tables: &mut T) -> Result<(), Stop>
    ensures { (said : Said) → T.says tables.old ≡ Some said
        → IsErrAnd result (EndsIf (IsTrue said.may_fail) (IsFirstStop said)) }
{
    if !tables.has_schema() {
        return Err(Stop::Found(Misfit::Tables));
    }
    let read = tables.versions(alloc);
    let versions = keyed_rows(read, "meta")?;
    look_at_version(versions.as_slice())?;
    look_from_batches(alloc, tables)
}

/// What a look has found.
fn found_by(looked: Result<(), Stop>) -> Option<Misfit>
    ensures { result ≡ found_by looked }
{
    match looked {
        Err(Stop::Found(misfit)) => Some(misfit),
        Err(Stop::Failed) => None,
        Ok(()) => None,
    }
}

/// What is wrong first with these tables; none where memory or the store fails.
fn misfit_in<T: Tables>(alloc: Global, tables: &mut T) -> Option<Misfit>
    ensures { (said : Said) → T.says tables.old ≡ Some said
        → EndsIf (IsTrue said.may_fail) (IsFirstStop said) (stop_in result) }
{
    found_by(look(alloc, tables))
}

/// The rows of a file that is no desk.
pub(crate) trait Rows {
    ghost use Rattle.std.specs.Prelude.{Option};
    ghost use Rattle.tb_host.specs.declared.misfit.Misfit.{Misfit};

    // what a look at them finds wrong first; none where memory or the store fails
    ghost IsMisfit: { Self → Option Misfit → Type 0 };

    /// Looks for what is wrong first.
    fn first_misfit(&mut self, alloc: Global) -> Option<Misfit>
        ensures { IsMisfit self.old result };
}

impl<S: Alter> Rows for Connection<S> {
    ghost IsMisfit = { λ _ _. Unit {0} };

    fn first_misfit(&mut self, alloc: Global) -> Option<Misfit> {
        misfit_in(alloc, self)
    }
}
