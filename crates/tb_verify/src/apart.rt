//! Whether batches have good names, no two the same, and whether no two sentences have one `sent_id`.

ghost use Rattle.std.specs.Prelude.{◌≡◌, false, [], IfOk, IsOk, Ok, Decides, map, string_bytes};
ghost use Rattle.tb_verify.specs.Prelude.{AreApart, batch_of, is_name, list_all, sentence_of};
ghost use Rattle.tb_verify.specs.Apart.{AreNamed, AreTitled, IsAdded};

use std::alloc::{AllocError, Global};
use std::collections::BTreeSet;
use tb_core::good_name;
use tb_tables::{BatchRow, SentenceRow};

/// Adds the text to those seen. Returns whether it was not among them.
fn add(alloc: Global, seen: &mut BTreeSet<String>, text: &str) -> Result<bool, AllocError>
    ensures { IfOk result (λ added. IsAdded added (map string_bytes seen.old.keys) text.now
        (map string_bytes seen.new.keys)) }
{
    let owned = String::from_str(alloc, text)?;
    let added = seen.insert(owned)?;
    Ok(added)
}

fn is_good(row: &BatchRow) -> bool
    ensures { result ≡ is_name (string_bytes row.now.name) }
{
    good_name(row.name.as_str())
}

fn are_good(rows: &[BatchRow]) -> bool
    ensures { result ≡ list_all (λ r. is_name (string_bytes r.name)) rows.now }
{
    rows.iter().all(|row| is_good(row))
}

/// A row with a text of its own.
trait Titled {
    ghost use Rattle.std.specs.Prelude.{◌≡◌, ℕ, List};

    ghost text: { Self → List ℕ };

    /// Its own text.
    fn own_text(&self) -> &str
        ensures { result.now ≡ text self.now };
}

/// A batch has its name.
impl Titled for BatchRow {
    ghost use Rattle.std.specs.Prelude.{string_bytes};

    ghost text = { λ r. string_bytes r.name };

    fn own_text(&self) -> &str {
        self.name.as_str()
    }
}

/// A sentence has its `sent_id`.
impl Titled for SentenceRow {
    ghost use Rattle.std.specs.Prelude.{string_bytes};

    ghost text = { λ r. string_bytes r.sent_id };

    fn own_text(&self) -> &str {
        self.sent_id.as_str()
    }
}

/// Whether no two rows have one text.
fn are_apart<R: Titled>(alloc: Global, rows: &[R]) -> Result<bool, AllocError>
    ensures apart { IfOk result (λ apart. Decides apart (AreApart (map R.text rows.now))) }
    ensures sure { rows.now ≡ [] → IsOk result }
{
    // A tree, not a hash table: no file can make its texts collide.
    let mut seen: BTreeSet<String> = BTreeSet::new(alloc);
    for row in rows {
        if !add(alloc, &mut seen, row.own_text())? {
            return Ok(false);
        }
    }
    Ok(true)
}

/// Whether batches have good names, no two the same. It takes no memory where a name is bad.
///
/// # Errors
///
/// Want of memory.
pub(crate) fn are_batches_apart(alloc: Global, rows: &[BatchRow]) -> Result<bool, AllocError>
    ensures named { IfOk result (λ named. Decides named (AreNamed (map batch_of rows.now))) }
    ensures bad { list_all (λ r. is_name (string_bytes r.name)) rows.now ≡ false → result ≡ Ok false }
    ensures sure { rows.now ≡ [] → IsOk result }
{
    if !are_good(rows) {
        return Ok(false);
    }
    are_apart::<BatchRow>(alloc, rows)
}

/// Whether no two sentences have the same `sent_id`.
///
/// # Errors
///
/// Want of memory.
pub(crate) fn are_sentences_apart(alloc: Global, rows: &[SentenceRow]) -> Result<bool, AllocError>
    ensures apart { IfOk result (λ apart. Decides apart (AreTitled (map sentence_of rows.now))) }
    ensures sure { rows.now ≡ [] → IsOk result }
{
    are_apart::<SentenceRow>(alloc, rows)
}
