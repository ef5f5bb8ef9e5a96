//! Counts the words of sentences.

ghost use Rattle.std.specs.Prelude.{◌≡◌, ◌≢◌, ◌+◌, ◌<◌, ◌^◌, List, sum_by, Err, IfOk, IfErr};
ghost use Rattle.tb_import.specs.Prelude.{AnyRefusal, BlockText, IsBody, IsNoDevice, NewSentenceText, words_of};

use std::alloc::Global;
use tb_core::{Fault, NewSentence, take_file_ref};

/// The sum of two numbers of words, which no desk has 2^64 of.
pub(crate) fn more_words(total: u64, words: u64) -> Result<u64, Fault>
    ensures sum { IfOk result (λ n. n ≡ total + words) }
    ensures fails { total + words < 2 ^ 64 → result ≢ Err Fault.NotADesk }
    ensures fault { IfErr result (λ e. e ≡ Fault.NotADesk) }
{
    match total.checked_add(words) {
        Some(sum) => Ok(sum),
        None => Err(Fault::NotADesk),
    }
}

/// The words of these sentences.
pub(crate) fn words_in(taken: &[NewSentence<'_>]) -> Result<u64, Fault>
    ensures value { IfOk result (λ n. n ≡ sum_by (λ (t : NewSentenceText). t.words) taken.now) }
    ensures never_refuses { (r : AnyRefusal) → result ≢ Err (Fault.Refused r) }
    ensures output { result ≢ Err Fault.Output }
    ensures fails { sum_by (λ (t : NewSentenceText). t.words) taken.now < 2 ^ 64 → result ≢ Err Fault.NotADesk }
    ensures cause { IfErr result IsNoDevice }
    ensures fault { IfErr result (λ e. e ≡ Fault.NotADesk) }
{
    let mut total = 0u64;
    for one in taken {
        let more = more_words(total, one.words)?;
        total = more;
    }
    Ok(total)
}

/// The fault of a stored text that was not taken: want of memory, or it is no file of valid sentences.
fn of_body(fault: Fault) -> Fault
    ensures memory { fault ≡ Fault.Memory → result ≡ Fault.Memory }
    ensures other { fault ≢ Fault.Memory → result ≡ Fault.NotADesk }
    ensures never_refuses { (r : AnyRefusal) → result ≢ Fault.Refused r }
    ensures output { result ≢ Fault.Output }
    ensures cause { IsNoDevice result }
{
    match fault {
        Fault::Memory => Fault::Memory,
        _ => Fault::NotADesk,
    }
}

/// The words of a text that is a file of valid sentences.
pub(crate) fn words_of_text(alloc: Global, text: &[u8]) -> Result<u64, Fault>
    ensures value { IfOk result (λ n. (bs : List BlockText) × IsBody text.now bs × (n ≡ sum_by words_of bs)) }
    ensures never_refuses { (r : AnyRefusal) → result ≢ Err (Fault.Refused r) }
    ensures output { result ≢ Err Fault.Output }
    ensures fails { (bs : List BlockText) → IsBody text.now bs → sum_by words_of bs < 2 ^ 64
        → result ≢ Err Fault.NotADesk }
    ensures cause { IfErr result IsNoDevice }
{
    match take_file_ref(alloc, text) {
        Ok(taken) => words_in(taken.as_slice()),
        Err(fault) => Err(of_body(fault)),
    }
}
