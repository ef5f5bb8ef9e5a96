//! A sentence, as a list shows it.

ghost use Rattle.std.specs.Prelude.{◌≡◌, ◌≢◌, ◌∷◌, [], Err, IfErr, IfOk, None, Some, string_bytes};
ghost use Rattle.tb_lists.specs.Prelude.{AnyRefusal, BlockText, IsFile, IsNoDevice, sentence_of, text_value_of};
ghost use Rattle.tb_lists.specs.Sentences.{SentenceText};
ghost use Rattle.tb_lists.specs.Shown.{shown};

use std::alloc::Global;
use std::marker::Model;
use tb_conllu::{BlockRef, known_block};
use tb_core::Fault;
use tb_tables::{RevisionRow, SentenceRow};

/// A sentence, and its current revision.
#[derive(Drop)]
pub struct SentenceLine {
    /// Its number, from 1.
    pub no: u64,
    pub sent_id: String,
    /// The number of its current revision, from 1.
    pub rev: u64,
    /// The user who wrote its current revision.
    pub who: String,
    /// The words of its current revision.
    pub words: u64,
    /// Whether it is pulled.
    pub pulled: bool,
    /// The value of the comment `text` of its current revision.
    pub text: String,
}

impl Model for SentenceLine {
    ghost Value = { SentenceText };

    ghost view = { λ x. record {
      no = x.no;
      sent_id = string_bytes x.sent_id;
      rev = x.rev;
      who = string_bytes x.who;
      words = x.words;
      pulled = x.pulled;
      text = string_bytes x.text;
    } };
}

/// The value of the comment `text` of a sentence; every sentence of a desk has one.
fn value_of<'b>(block: &'b BlockRef<'_>) -> &'b str
    ensures { result.now ≡ text_value_of block.now }
{
    tb_rules::text(block).unwrap_or("")
}

/// The sentence that was found in a text. A text in which there is none is no desk's.
fn found_in(found: Option<BlockRef<'_>>) -> Result<BlockRef<'_>, Fault>
    ensures sentence { IfOk result (λ b. found.entry ≡ Some b) }
    ensures none { IfErr result (λ e. (e ≡ Fault.NotADesk) × (found.entry ≡ None)) }
{
    match found {
        Some(block) => Ok(block),
        None => Err(Fault::NotADesk),
    }
}

/// The sentence that has these bytes.
fn sentence_in(alloc: Global, body: &str) -> Result<BlockRef<'_>, Fault>
    ensures read { IfOk result (λ b. (x : BlockText) → IsFile body.now (x ∷ []) → b ≡ x) }
    ensures known { result ≡ Err Fault.NotADesk → (x : BlockText) → IsFile body.now (x ∷ []) → ⊥ }
    ensures never_refuses { (r : AnyRefusal) → result ≢ Err (Fault.Refused r) }
    ensures cause { IfErr result IsNoDevice }
    ensures output { result ≢ Err Fault.Output }
{
    let found = known_block(alloc, body.as_bytes())?;
    found_in(found)
}

/// The value of the comment `text` of the sentence that has these bytes.
fn text_in(alloc: Global, body: &str) -> Result<String, Fault>
    ensures text { IfOk result (λ t. (b : BlockText) → IsFile body.now (b ∷ [])
        → string_bytes t ≡ text_value_of b) }
    ensures known { result ≡ Err Fault.NotADesk → (b : BlockText) → IsFile body.now (b ∷ []) → ⊥ }
    ensures never_refuses { (r : AnyRefusal) → result ≢ Err (Fault.Refused r) }
    ensures cause { IfErr result IsNoDevice }
    ensures output { result ≢ Err Fault.Output }
{
    let block = sentence_in(alloc, body)?;
    Ok(String::from_str(alloc, value_of(&block))?)
}

/// The sentence of a row, with its number and its current revision.
pub(crate) fn line_of(
    alloc: Global,
    no: u32,
    row: &SentenceRow,
    is_pulled: bool,
    current: RevisionRow,
) -> Result<SentenceLine, Fault>
    ensures line { IfOk result (λ line. (b : BlockText) → IsFile (string_bytes current.body) (b ∷ [])
        → line ≡ shown no (sentence_of row.now) is_pulled (string_bytes current.who) (text_value_of b)) }
    ensures known { result ≡ Err Fault.NotADesk → (b : BlockText) → IsFile (string_bytes current.body) (b ∷ [])
        → ⊥ }
    ensures never_refuses { (r : AnyRefusal) → result ≢ Err (Fault.Refused r) }
    ensures cause { IfErr result IsNoDevice }
    ensures output { result ≢ Err Fault.Output }
{
    let text = text_in(alloc, current.body.as_str())?;
    let sent_id = String::from_str(alloc, row.sent_id.as_str())?;
    Ok(SentenceLine {
        no: u64::from(no),
        sent_id,
        rev: u64::from(row.rev),
        who: current.who,
        words: u64::from(row.words),
        pulled: is_pulled,
        text,
    })
}
