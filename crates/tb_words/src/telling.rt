//! Tells the faults of a file, in one walk over it.

ghost use Rattle.std.specs.Prelude.{◌≡◌, ◌+◌, ◌-◌, ◌<◌, ◌^◌, [], ℕ, if◌then◌else◌, IfOk, IfSome, IsOk, List, map};
ghost use Rattle.std.specs.Prelude.{max, min, OnOk, Some, unwrap_or};
ghost use Rattle.tb_words.specs.Explaining.{ExplainsLine, ExplainsRule, SaysOfRule, SaysSentence};
ghost use Rattle.tb_words.specs.FileLines.{IsAtLine};
ghost use Rattle.tb_words.specs.FileSentences.{comment_line_of};
ghost use Rattle.tb_words.specs.Named.{IsFirstNamed, SaysFirstTaken, is_named};
ghost use Rattle.tb_words.specs.Told.{AreTold, IsTakenAmong, TellsFault, TellsLineAt, TellsPlaced, TellsSentence};
ghost use Rattle.tb_words.specs.Told.{line_told, sentence_told};
ghost use Rattle.tb_words.specs.Walks.{HasWalked, IsWalk, KnowsNames, first_of};
ghost use Rattle.tb_words.specs.declared.words.Page.TheVariants.{Code, Rule};

use crate::codes::fault_of_line;
use crate::findings::Finding;
use crate::places::{Lines, Placed, Places, sentence_at};
use crate::rules::{fault_by, name_taken};
use crate::sentences as reported;
use crate::words::{Page, Words};
use std::alloc::{AllocError, Global};
use std::collections::BTreeMap;
use tb_check::Fault;
use tb_report::FaultRow;
use tb_rules::sent_id_ref;

/// The words for a line that cannot be read: the one with this number, counted from 1, and this code.
pub(crate) fn words_of_line(alloc: Global, file: &[u8], number: usize, code: u8) -> Words
    ensures page { result.page ≡ Some (Code code) }
    ensures said { ExplainsLine file.now number code result }
{
    let line = Lines::new(file).read_to(number);
    let fault = fault_of_line(alloc, &line, code);
    fault.words(alloc).on(Page::Code(code))
}

/// Whether a sentence has this name.
fn is_named(placed: &Placed<'_>, name: &str) -> bool
    ensures { result ≡ is_named placed.now name.now }
{
    match sent_id_ref(&placed.block) {
        Some(other) => other == name,
        None => false,
    }
}

/// The first of the sentences before this number that has this name: its number, and its first line.
fn named_before(alloc: Global, file: &[u8], number: u64, name: &str) -> Option<(u64, usize)>
    ensures { IfSome result (λ found. IsFirstNamed file.now name.now found.0 found.1) }
{
    let mut places = Places::new(alloc, file);
    for earlier in 1..number {
        let placed = places.next()?;
        if is_named(&placed, name) {
            return Some((earlier, placed.comment_line(0)));
        }
    }
    None
}

/// What is wrong with a sentence that has the name of an earlier one. This is its number.
fn taken_in<'a>(
    alloc: Global,
    file: &[u8],
    placed: &Placed<'a>,
    sentence: u64,
) -> Option<Finding<'a>>
    ensures { IfSome result (SaysFirstTaken file.now placed.now) }
{
    let name = sent_id_ref(&placed.block)?;
    let (earlier, first) = named_before(alloc, file, sentence, name)?;
    name_taken(placed, earlier, first)
}

/// What is wrong with the sentence that has this number by this rule.
fn fault_in<'a>(
    alloc: Global,
    file: &[u8],
    placed: &Placed<'a>,
    sentence: u64,
    rule: u8,
    row: u64,
) -> Option<Finding<'a>>
    ensures { IfSome result (SaysOfRule file.now placed.now rule row) }
{
    if rule == 12 {
        return taken_in(alloc, file, placed, sentence);
    }
    fault_by(alloc, placed, rule, row as usize)
}

/// The words for what is wrong with the sentence that has this number by this rule.
fn words_in(alloc: Global, file: &[u8], sentence: u64, rule: u8, row: u64) -> Option<Words>
    ensures { IfSome result (ExplainsRule file.now sentence rule row) }
{
    let placed = sentence_at(alloc, file, sentence)?;
    let fault = fault_in(alloc, file, &placed, sentence, rule, row)?;
    Some(fault.words(alloc))
}

/// The words for a broken rule: where the sentence with this number, counted from 1, breaks it, and by what. The row
/// is that of rules 4 to 8, else 0.
pub(crate) fn words_of_rule(alloc: Global, file: &[u8], sentence: u64, rule: u8, row: u64) -> Words
    ensures page { result.page ≡ Some (Rule rule) }
    ensures said { SaysSentence file.now sentence rule row result }
{
    match words_in(alloc, file, sentence, rule, row) {
        Some(words) => words.on(Page::Rule(rule)),
        None => Words::at(format!(in alloc; "sentence {sentence}"), reported::BROKEN).on(Page::Rule(
            rule,
        )),
    }
}

/// For each name the first sentence that has it: its number, and its first line.
// A tree, not a hash table: no file can make its names collide.
type Names<'a> = BTreeMap<&'a str, (usize, usize)>;

/// Keeps the name of the sentence that has this number, if no earlier one has it.
fn keep_name<'a>(
    names: &mut Names<'a>,
    placed: &Placed<'a>,
    number: usize,
) -> Result<(), AllocError>
    ensures { OnOk result ((name : List ℕ) → first_of names.new name ≡ (if is_named placed.now name
        then Some (unwrap_or (first_of names.old name) (number, comment_line_of placed.now 0))
        else first_of names.old name)) }
{
    let Some(name) = sent_id_ref(&placed.block) else {
        return Ok(());
    };
    if names.contains_key(name) {
        return Ok(());
    }
    names.insert(name, (number, placed.comment_line(0)))?;
    Ok(())
}

/// The first sentence that has a name.
fn first_named(names: &Names<'_>, name: &str) -> Option<(usize, usize)>
    ensures { result ≡ first_of names.now name.now }
{
    names.get(name).copied()
}

/// What is wrong with a sentence that has the name of one of these.
fn taken_among<'a>(names: &Names<'a>, placed: &Placed<'a>) -> Option<Finding<'a>>
    ensures { IfSome result (IsTakenAmong names.now placed.now) }
{
    let name = sent_id_ref(&placed.block)?;
    let first = first_named(names, name)?;
    name_taken(placed, first.0 as u64, first.1)
}

/// What is wrong with a sentence by this rule, where these are the first sentences of each name.
fn known_fault<'a>(
    alloc: Global,
    names: &Names<'a>,
    placed: &Placed<'a>,
    rule: u8,
    row: usize,
) -> Option<Finding<'a>>
    ensures { (file : List ℕ) (count : ℕ) → KnowsNames file count names.now
        → IfSome result (SaysOfRule file placed.now rule row) }
{
    if rule == 12 {
        return taken_among(names, placed);
    }
    fault_by(alloc, placed, rule, row)
}

/// The same, or only that the sentence breaks the rule.
fn fault_among<'a>(
    alloc: Global,
    names: &Names<'a>,
    placed: &Placed<'a>,
    rule: u8,
    row: usize,
) -> Finding<'a>
    ensures { (file : List ℕ) (count : ℕ) → KnowsNames file count names.now
        → TellsPlaced file placed.now rule row result }
{
    match known_fault(alloc, names, placed, rule, row) {
        Some(fault) => fault,
        None => Finding::on(placed.comment_line(0), reported::BROKEN),
    }
}

/// A walk over a file, up to the last fault that was told.
#[derive(Drop)]
struct Walk<'a> {
    alloc: Global,
    lines: Lines<'a>,
    places: Places<'a>,
    /// The last sentence that was read, and its number.
    here: Option<Placed<'a>>,
    number: usize,
    names: Names<'a>,
}

impl<'a> Walk<'a> {
    fn new(alloc: Global, file: &'a [u8]) -> Walk<'a>
        ensures start { (result.lines.here.number ≡ 0) × (result.number ≡ 0) }
        ensures at { IsWalk file.now result }
    {
        Walk {
            alloc,
            lines: Lines::new(file),
            places: Places::new(alloc, file),
            here: None,
            number: 0,
            names: BTreeMap::new(alloc),
        }
    }

    /// Reads the next sentence.
    fn read_next(&mut self) -> Result<(), AllocError>
        ensures number { self.new.number ≡ min (self.old.number + 1) (2 ^ 64 - 1) }
        ensures lines { self.new.lines ≡ self.old.lines }
        ensures at { (file : List ℕ) → self.old.number + 1 < 2 ^ 64 → HasWalked file self.old
            → OnOk result (HasWalked file self.new) }
    {
        self.number = self.number.saturating_add(1);
        let Some(placed) = self.places.read_next()? else {
            self.here = None;
            return Ok(());
        };
        keep_name(&mut self.names, &placed, self.number)?;
        self.here = Some(placed);
        Ok(())
    }

    /// Reads on to the sentence with this number.
    fn read_to(&mut self, sentence: usize) -> Result<(), AllocError>
        ensures number { OnOk result (self.new.number ≡ max self.old.number sentence) }
        ensures lines { self.new.lines ≡ self.old.lines }
        ensures at { (file : List ℕ) → HasWalked file self.old → OnOk result (HasWalked file self.new) }
    {
        while self.number < sentence {
            self.read_next()?;
        }
        Ok(())
    }

    /// What is wrong with the sentence that was read last, by this rule.
    fn fault_here(&self, rule: u8, row: usize) -> Finding<'a>
        ensures { (file : List ℕ) → HasWalked file self.now
            → TellsSentence file self.now.number rule row result }
    {
        match &self.here {
            Some(placed) => fault_among(self.alloc, &self.names, placed, rule, row),
            None => Finding::on(0, reported::BROKEN),
        }
    }

    /// What is wrong with the sentence that has this number, not below that of the last one, by this rule.
    fn fault_of_sentence(
        &mut self,
        sentence: usize,
        rule: u8,
        row: usize,
    ) -> Result<Finding<'a>, AllocError>
        ensures told { (file : List ℕ) → HasWalked file self.old
            → IfOk result (TellsSentence file (max self.old.number sentence) rule row) }
        ensures number { IfOk result (λ _. self.new.number ≡ max self.old.number sentence) }
        ensures lines { self.new.lines ≡ self.old.lines }
        ensures at { (file : List ℕ) → HasWalked file self.old → IfOk result (λ _. HasWalked file self.new) }
    {
        self.read_to(sentence)?;
        Ok(self.fault_here(rule, row))
    }

    /// What is wrong with the line that has this number, not below that of the last one, and this code.
    fn fault_at_line(&mut self, line: usize, code: u8) -> Finding<'a>
        ensures told { (file : List ℕ) → IsAtLine file self.old.lines
            → TellsLineAt file (max self.old.lines.here.number line) code result }
        ensures number { (self.new.lines.here.number ≡ max self.old.lines.here.number line)
            × (self.new.number ≡ self.old.number) }
        ensures at { (file : List ℕ) → IsWalk file self.old → IsWalk file self.new }
    {
        let line = self.lines.read_to(line);
        fault_of_line(self.alloc, &line, code)
    }

    /// Tells a fault that is not before the last one.
    fn tell(&mut self, fault: Fault) -> Result<FaultRow, AllocError>
        ensures fault { IfOk result (λ told. told.fault ≡ fault) }
        ensures told { (file : List ℕ) → IsWalk file self.old
            → IfOk result (TellsFault file self.old.lines.here.number self.old.number fault) }
        ensures number { IfOk result (λ _. (self.new.lines.here.number ≡ line_told self.old.lines.here.number fault)
            × (self.new.number ≡ sentence_told self.old.number fault)) }
        ensures at { (file : List ℕ) → IsWalk file self.old → IfOk result (λ _. IsWalk file self.new) }
    {
        match fault {
            Fault::Line { line, code } => {
                let found = self.fault_at_line(line, code);
                found.told(self.alloc, fault)
            }
            Fault::Rule {
                sentence,
                rule,
                row,
            } => {
                let found = self.fault_of_sentence(sentence, rule, row)?;
                found.told(self.alloc, fault)
            }
        }
    }
}

/// Tells faults of a file that are in order: where each is, what is there, and what is wrong, in words.
///
/// # Errors
///
/// No memory is left.
pub(crate) fn tell_faults(
    alloc: Global,
    file: &[u8],
    faults: &[Fault],
) -> Result<Vec<FaultRow>, AllocError>
    ensures faults { IfOk result (λ v. map (λ x. x.fault) v.items ≡ faults.now) }
    ensures told { IfOk result (λ v. AreTold file.now 0 0 faults.now v.items) }
    ensures sure { faults.now ≡ [] → IsOk result }
{
    let mut walk = Walk::new(alloc, file);
    let mut told = Vec::new(alloc);
    for fault in faults {
        told.push(walk.tell(*fault)?)?;
    }
    Ok(told)
}
