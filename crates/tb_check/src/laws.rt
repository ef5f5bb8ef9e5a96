//! Laws of replies and of faults. Each function states a fact about the definitions, and runs nothing.

ghost use Rattle.std.specs.Prelude.{◌≡◌, ◌≤◌, ◌⊎◌, ℕ, List, [], ◌∷◌, length, true, Option};
ghost use Rattle.tb_conllu.specs.Text.{BlockText};
ghost use Rattle.tb_conllu.specs.Reported.{IsFile, IsReported};
ghost use Rattle.tb_rules.specs.File.{IsFaultAt, IsValid};
ghost use Rattle.tb_check.specs.Check.{IsReplyTo, IsReplyToRead, IsReplyToTaken, tells_of_input, words_in};
ghost use Rattle.tb_check.specs.Faults.{AreFaults};
ghost use Rattle.tb_check.specs.declared.fault.Fault.{Fault};
ghost use Rattle.tb_check.specs.declared.fault.Fault.TheVariants.{Line, Rule};
ghost use Rattle.tb_check.specs.declared.reply.CheckReply.{CheckReply};
ghost use Rattle.tb_check.specs.declared.reply.CheckReply.TheVariants.{Counts, Memory};

use tb_conllu::{
    Source, faulty_lines_are_reported, one_fault_is_reported, one_list_has_a_text,
    reported_bytes_are_no_file,
};
use tb_rules::{
    broken_rules_of_a_file_are_reported, faulty_sentences_are_not_valid, one_sentence_is_reported,
};

/// At most one reply is true of an input, want of memory and a failed device aside.
pub fn one_reply_is_true()
    ensures { (limit : ℕ) (input : List ℕ) (reply other : CheckReply) → tells_of_input reply ≡ true
        → tells_of_input other ≡ true → IsReplyTo limit input reply → IsReplyTo limit input other
        → reply ≡ other }
{
    one_list_has_a_text();
    reported_bytes_are_no_file();
    one_fault_is_reported();
    faulty_sentences_are_not_valid();
    one_sentence_is_reported();
}

/// The reply to what was taken of an input is true of the whole input, where it is known, and is a failed device only
/// where the source failed.
pub fn the_reply_to_what_is_taken_is_true<R: Source>()
    ensures { (source : R) (limit : ℕ) (unread left : Option (List ℕ)) (given gives : Option (List (List ℕ)))
        (reply : CheckReply)
        → IsReplyToTaken (R.IsFailure source) limit unread left given gives reply
        → IsReplyToRead (R.IsFailure source) limit unread left reply }
{}

/// The reply to valid sentences within the limit is how many there are, and their words; or want of memory.
pub fn valid_sentences_are_counted()
    ensures { (limit : ℕ) (input : List ℕ) (bs : List BlockText) (reply : CheckReply) → length input ≤ limit
        → IsFile input bs → IsValid bs → IsReplyTo limit input reply
        → (reply ≡ Counts (length bs) (words_in bs)) ⊎ (reply ≡ Memory) }
{
    one_reply_is_true();
}

/// A file has no fault exactly where it can be read and its sentences are valid. Else the first fault is the one that a
/// check reports.
pub fn the_first_fault_is_reported()
    ensures line { (f : List ℕ) (line code : ℕ) (more : List Fault) → AreFaults f (Line line code ∷ more)
        → IsReported f line code }
    ensures rule { (f : List ℕ) (sentence rule row : ℕ) (more : List Fault)
        → AreFaults f (Rule sentence rule row ∷ more)
        → (bs : List BlockText) × IsFile f bs × IsFaultAt bs sentence rule row }
    ensures none { (f : List ℕ) → AreFaults f [] → (bs : List BlockText) × IsFile f bs × IsValid bs }
    ensures valid { (f : List ℕ) (bs : List BlockText) (faults : List Fault) → IsFile f bs → IsValid bs
        → AreFaults f faults → faults ≡ [] }
{
    faulty_lines_are_reported();
    one_list_has_a_text();
    broken_rules_of_a_file_are_reported();
    faulty_sentences_are_not_valid();
}
