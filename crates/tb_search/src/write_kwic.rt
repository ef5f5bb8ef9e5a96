//! Keyword lines of hits.

ghost use Rattle.std.specs.Prelude.{◌≡◌, ◌≢◌, ◌<◌, ◌≤◌, ◌∷◌, [], All, Err, IfErr, IfOk, IsOk, None, OnOk};
ghost use Rattle.tb_search.specs.Prelude.{Appends, AppendsPart, keyword_line, only, sent_id_of, sent_ids, words_of};
ghost use Rattle.tb_search.specs.Visited.{HasReason, IsFault, IsStopFault, IsStopWant};
ghost use Rattle.tb_search.specs.Searched.{AreCut, lines, occurrences, total_line};

use crate::searcher::{SentenceSearcher, raised, sentence_in};
use crate::stopped::Stopped;
use crate::visitor::BodyVisitor;
use itoa::Buffer;
use std::alloc::{AllocError, Global};
use tb_conllu::{BlockRef, Sink};
use tb_reads::ReadError;
use tb_report::kwic_named;
use tb_rules::sent_id;

/// The name of a sentence. A sentence without one is no desk's.
fn name_in<'b>(block: &'b BlockRef<'_>) -> Result<&'b str, Stopped>
    ensures named { IfOk result (λ name. name.now ≡ sent_id_of block.now) }
    ensures none { IfErr result (λ e. (e ≡ Stopped.Read ReadError.Form) × (only (sent_ids block.now) ≡ None)) }
    ensures never_refuses { result ≢ Err Stopped.Output }
    ensures fails { IfErr result IsStopFault }
    ensures cause { IfErr result IsStopWant }
{
    match sent_id(block) {
        Some(name) => Ok(name),
        None => Err(Stopped::Read(ReadError::Form)),
    }
}

/// A line in memory.
#[derive(Drop)]
pub(crate) struct Line {
    bytes: Vec<u8>,
}

impl Line {
    /// A line without text.
    pub(crate) fn new(alloc: Global) -> Line {
        Line {
            bytes: Vec::new(alloc),
        }
    }
}

impl Sink for Line {
    type Refusal = AllocError;

    ghost use Rattle.std.specs.Prelude.{Some};

    ghost held = { λ s. Some s.bytes.items };

    ghost IsRefusal = { λ _ _. Unit {0} };

    fn put(&mut self, bytes: &[u8]) -> Result<(), AllocError> {
        self.bytes.extend_from_slice(bytes)
    }
}

/// Writes the bytes, or reports that the sink refused them.
fn put_piece<W: Sink>(bytes: &[u8], out: &mut W) -> Result<(), Stopped>
    ensures put { OnOk result (Appends (W.held out.old) (W.held out.new) bytes.now) }
    ensures part { IfErr result (λ e. (e ≡ Stopped.Output)
        × AppendsPart (W.held out.old) (W.held out.new) bytes.now) }
    ensures refused { result ≡ Err Stopped.Output → HasReason (W.IsRefusal out.new) }
    ensures fails { IfErr result IsStopFault }
    ensures cause { IfErr result IsStopWant }
{
    match out.put(bytes) {
        Ok(()) => Ok(()),
        Err(_) => Err(Stopped::Output),
    }
}

/// Writes the line of one hit in one piece. The line is made in memory first, in place of the line before.
fn put_hit<W: Sink>(
    line: &mut Line,
    name: &str,
    block: &BlockRef<'_>,
    hit: (u32, u32),
    context: u8,
    out: &mut W,
) -> Result<(), Stopped>
    requires named { name.now ≡ sent_id_of block.now }
    requires first { hit.0 < hit.1 }
    requires last { hit.1 ≤ words_of block.now }
    ensures put { OnOk result (Appends (W.held out.old) (W.held out.new) (keyword_line block.now hit context)) }
    ensures cut { IfErr result (λ e. AreCut e (W.held out.old) (W.held out.new) context (occurrences block.now
        (hit ∷ []))) }
    ensures refused { result ≡ Err Stopped.Output → HasReason (W.IsRefusal out.new) }
    ensures fault { IfErr result IsFault }
    ensures fails { IfErr result IsStopFault }
    ensures cause { IfErr result IsStopWant }
{
    line.bytes.clear();
    kwic_named(name, block, hit, context, line)?;
    put_piece(line.bytes.as_slice(), out)
}

/// Writes the lines of the hits of a sentence.
fn put_hits<W: Sink>(
    line: &mut Line,
    name: &str,
    block: &BlockRef<'_>,
    hits: &[(u32, u32)],
    context: u8,
    out: &mut W,
) -> Result<(), Stopped>
    requires named { name.now ≡ sent_id_of block.now }
    requires lie { All (λ h. (h.0 < h.1) × (h.1 ≤ words_of block.now)) hits.now }
    ensures put { OnOk result (Appends (W.held out.old) (W.held out.new)
        (lines context (occurrences block.now hits.now))) }
    ensures cut { IfErr result (λ e. AreCut e (W.held out.old) (W.held out.new) context
        (occurrences block.now hits.now)) }
    ensures refused { result ≡ Err Stopped.Output → HasReason (W.IsRefusal out.new) }
    ensures fault { IfErr result IsFault }
    ensures fails { IfErr result IsStopFault }
    ensures cause { IfErr result IsStopWant }
    ensures sure { hits.now ≡ [] → IsOk result }
{
    for hit in hits {
        put_hit(line, name, block, *hit, context, out)?;
    }
    Ok(())
}

/// Writes the keyword lines of the hits of a query, and counts them. All lines are made in the same memory.
#[derive(Drop)]
pub(crate) struct WriteKwic<'q> {
    pub seeker: SentenceSearcher<'q>,
    pub context: u8,
    pub found: u64,
    pub line: Line,
}

impl<'q, W: Sink> BodyVisitor<W> for WriteKwic<'q> {
    ghost use Rattle.std.specs.Prelude.{◌≡◌, ◌⊎◌, ◌+◌, length};
    ghost use Rattle.tb_search.specs.Prelude.{Appends, BlockText, HasNeedles};
    ghost use Rattle.tb_search.specs.Visited.{HasReason, IsFault};
    ghost use Rattle.tb_search.specs.Searched.{AreCut, IsValidText, Meets, lines};

    ghost Takes = { λ v o body w p. Meets v.seeker.strategy v.seeker.searcher.asked body (λ found. (w.seeker ≡ v.seeker) × (w.context ≡ v.context) × (w.found ≡ v.found + length found) × Appends (W.held o) (W.held p) (lines v.context found)) };

    ghost Stops = { λ v o body e p. HasNeedles v.seeker.searcher body × ((b : BlockText) → IsValidText b body → IsFault e) × ((p ≡ o) ⊎ Meets v.seeker.strategy v.seeker.searcher.asked body (λ found. AreCut e (W.held o) (W.held p) v.context found)) };

    ghost Refused = { λ p. HasReason (W.IsRefusal p) };

    fn visit(&mut self, body: &[u8], filled: &mut W) -> Result<(), Stopped> {
        if !self.seeker.may_hit(body) {
            return Ok(());
        }
        let block = sentence_in(self.seeker.alloc, body)?;
        let hits = self.seeker.hits(&block)?;
        let found = raised(self.found, hits.len())?;
        let name = name_in(&block)?;
        put_hits(
            &mut self.line,
            name,
            &block,
            hits.as_slice(),
            self.context,
            filled,
        )?;
        self.found = found;
        Ok(())
    }
}

/// Writes the last line of an answer: how many hits there are.
pub(crate) fn put_total<W: Sink>(found: u64, out: &mut W) -> Result<(), Stopped>
    ensures put { OnOk result (Appends (W.held out.old) (W.held out.new) (total_line found)) }
    ensures part { IfErr result (λ e. (e ≡ Stopped.Output)
        × AppendsPart (W.held out.old) (W.held out.new) (total_line found)) }
    ensures refused { result ≡ Err Stopped.Output → HasReason (W.IsRefusal out.new) }
    ensures fails { IfErr result IsStopFault }
    ensures cause { IfErr result IsStopWant }
{
    let mut digits = Buffer::new();
    put_piece(b"hits ".as_slice(), out)?;
    put_piece(digits.format(found).as_bytes(), out)?;
    put_piece(b"\n".as_slice(), out)
}
