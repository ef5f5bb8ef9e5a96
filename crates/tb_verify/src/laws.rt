//! Laws: what rows say of sentences and states.

ghost use Rattle.std.specs.Prelude.{◌≡◌, ℕ, List, map};
ghost use Rattle.tb_verify.specs.Prelude.{AllByRecursion, Sentence as AnySentence, AreFine, batch_record, IsFine};
ghost use Rattle.tb_verify.specs.Prelude.{Machine, Revision, sentence_record};
ghost use Rattle.tb_tables.specs.Records.{Batch, Sentence};
ghost use Rattle.tb_verify.specs.Apart.{AreNamed, AreTitled};
ghost use Rattle.tb_verify.specs.File.{AreReadBack};

use tb_conllu::one_list_has_a_text;

/// At most one list of sentences has these rows.
pub(crate) fn rows_tell_sentences()
    ensures { (n : ℕ) (reported : List Sentence) (flags : List ℕ) (rows : List Revision) (xs ys : List AnySentence)
        → AreReadBack n reported flags rows xs → AreReadBack n reported flags rows ys → xs ≡ ys }
{
    // A text is that of at most one list of sentences, by this law.
    one_list_has_a_text();
}

/// A state is fine exactly where its sentences are, each by itself, and its rows of batches and sentences have names
/// that are apart.
pub(crate) fn rows_tell_names_apart()
    ensures fine { (f : Machine) (bs : List Batch) (ss : List Sentence) → map batch_record f.batches ≡ bs
        → map sentence_record f.sentences ≡ ss → AreNamed bs → AreTitled ss
        → AllByRecursion IsFine f.sentences → AreFine f }
    ensures unfit { (f : Machine) (bs : List Batch) (ss : List Sentence) → map batch_record f.batches ≡ bs
        → map sentence_record f.sentences ≡ ss → AreFine f → AreNamed bs × AreTitled ss
        × AllByRecursion IsFine f.sentences }
{}
