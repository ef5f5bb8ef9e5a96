//! Laws of lists of requests and of the check. Each function states a fact about the definitions, and runs nothing.

ghost use Rattle.std.specs.Prelude.{◌≡◌, ◌≤◌, ◌⊎◌, List, ℕ, length};
ghost use Rattle.tb_answer.specs.Prelude.{BlockText, CheckReply, HasCleanDisk, IsBody, IsReplyTo, Kept, MemStore};
ghost use Rattle.tb_answer.specs.Prelude.{over_memory, state, words_in};
ghost use Rattle.tb_check.specs.declared.reply.CheckReply.TheVariants.{Counts, Memory};
ghost use Rattle.tb_answer.specs.Calls.{HasNoNewFault};
ghost use Rattle.tb_answer.specs.Turns.{AreServed, CrashesToAnEnd, LeadOn};

use sqlite::Alter;
use tb_check::valid_sentences_are_counted;
use tb_conllu::Sink;

/// Requests that are answered in turn lead from the state that the desk represented to one that it represents.
///
/// The disk has to be clean at their end, without a fault since their begin.
pub fn requests_lead_on<S: Alter, W: Sink>()
    ensures { (bs : List (List ℕ)) (d e : Kept S) (u v : _) (result : _)
        → AreServed W.held W.IsRefusal S.Store bs d e u v result
        → HasCleanDisk (state S.Store e.conn) → HasNoNewFault S.Store d e
        → LeadOn W.held W.IsRefusal S.Store bs d e u v result }
{}

/// A crash after requests that are answered in turn leaves what it could leave before them, or the tables of a state to
/// which some of them lead.
///
/// The disk has to be clean at their end, without a fault since their begin. Nothing is asked of the desks between them.
pub fn requests_crash_to_an_end<S: Alter, W: Sink>()
    ensures { (bs : List (List ℕ)) (d e : Kept S) (u v : _) (result : _)
        → AreServed W.held W.IsRefusal S.Store bs d e u v result
        → HasCleanDisk (state S.Store e.conn) → HasNoNewFault S.Store d e
        → CrashesToAnEnd W.held W.IsRefusal S.Store bs d e }
{}

/// On a desk in memory, requests that are answered in turn lead from the state that it represented to one that it
/// represents.
pub fn requests_in_memory_lead_on<W: Sink>()
    ensures { (bs : List (List ℕ)) (d e : Kept MemStore) (u v : _) (result : _)
        → AreServed W.held W.IsRefusal over_memory bs d e u v result
        → LeadOn W.held W.IsRefusal over_memory bs d e u v result }
{}

/// For a body within the limit that an import takes, the check counts its sentences and their words, or runs out of
/// memory.
pub fn the_check_counts_what_is_taken()
    ensures { (limit : ℕ) (body : List ℕ) (bs : List BlockText) (reply : CheckReply)
        → length body ≤ limit → IsBody body bs → IsReplyTo limit body reply
        → (reply ≡ Counts (length bs) (words_in bs)) ⊎ (reply ≡ Memory) }
{
    valid_sentences_are_counted();
}
