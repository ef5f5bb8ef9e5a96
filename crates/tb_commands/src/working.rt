//! The part of a batch that its events move: its sentences that are not pulled.

ghost use Rattle.std.specs.Prelude.{◌≡◌, ◌≢◌, ◌<◌, ◌≤◌, ◌+◌, ◌^◌, length, Err, sum_by, IfOk, IfErr};
ghost use Rattle.tb_commands.specs.Prelude.{at_work, IsAscending, IsRead, one, Tells, weigh, words};
ghost use Rattle.tb_commands.specs.Working.{unless_pulled, each_one, its_words};

use sqlite::{Alter, Connection};
use std::alloc::Global;
use tb_core::{Fault, reached_states_are_well};
use tb_reads::BatchSentence;
use tb_refine::{is_among, read_pulled, read_work};

/// How many sentences, and the words of their current revisions.
#[derive(Clone, Copy, Debug)]
pub(crate) struct Sums {
    pub sentences: u32,
    pub words: u32,
}

/// Adds one sentence, with its words.
fn with_one(sums: Sums, item: &BatchSentence) -> Result<Sums, Fault>
    ensures value { IfOk result (λ r. (r.sentences ≡ sums.sentences + 1)
        × (r.words ≡ sums.words + item.now.words)) }
    ensures fails { sums.sentences + 1 < 2 ^ 32 → sums.words + item.now.words < 2 ^ 32
        → result ≢ Err Fault.NotADesk }
    ensures fault { IfErr result (λ e. e ≡ Fault.NotADesk) }
{
    let (Some(sentences), Some(words)) = (
        sums.sentences.checked_add(1),
        sums.words.checked_add(item.words),
    ) else {
        return Err(Fault::NotADesk);
    };
    Ok(Sums { sentences, words })
}

/// Adds the sentence, with its words, unless it is pulled.
fn with_work(sums: Sums, item: &BatchSentence, pulled: &[u32]) -> Result<Sums, Fault>
    ensures value { IfOk result (λ r. IsAscending (λ a b. a < b) pulled.now
        → (r.sentences ≡ sums.sentences + unless_pulled pulled.now each_one item.now)
        × (r.words ≡ sums.words + unless_pulled pulled.now its_words item.now)) }
    ensures bound { IfOk result (λ r. (r.sentences ≤ sums.sentences + 1)
        × (r.words ≤ sums.words + item.now.words)) }
    ensures fails { sums.sentences + 1 < 2 ^ 32 → sums.words + item.now.words < 2 ^ 32
        → result ≢ Err Fault.NotADesk }
    ensures fault { IfErr result (λ e. e ≡ Fault.NotADesk) }
{
    if is_among(item.number, pulled) {
        return Ok(sums);
    }
    with_one(sums, item)
}

/// The sums of the sentences that are not pulled.
fn sums_of(work: &[BatchSentence], pulled: &[u32]) -> Result<Sums, Fault>
    ensures value { IfOk result (λ r. IsAscending (λ a b. a < b) pulled.now
        → (r.sentences ≡ sum_by (unless_pulled pulled.now each_one) work.now)
        × (r.words ≡ sum_by (unless_pulled pulled.now its_words) work.now)) }
    ensures fails { length work.now < 2 ^ 32 → sum_by its_words work.now < 2 ^ 32 → result ≢ Err Fault.NotADesk }
    ensures fault { IfErr result (λ e. e ≡ Fault.NotADesk) }
{
    let mut sums = Sums {
        sentences: 0,
        words: 0,
    };
    for item in work {
        sums = with_work(sums, item, pulled)?;
    }
    Ok(sums)
}

/// How many sentences of the batch with this number, from 1, are not pulled, and their words.
pub(crate) fn find_work<S: Alter>(
    alloc: Global,
    conn: &mut Connection<S>,
    number: u32,
) -> Result<Sums, Fault>
    ensures answered { Tells S.Store conn.old conn.new result (λ s r.
        (r.sentences ≡ weigh (at_work number one) s.sentences)
        × (r.words ≡ weigh (at_work number words) s.sentences)) }
    ensures read { IsRead S.Store conn.old conn.new result }
{
    reached_states_are_well();
    let work = read_work(alloc, conn, number)?;
    let pulled = read_pulled(alloc, conn)?;
    sums_of(work.as_slice(), pulled.as_slice())
}
