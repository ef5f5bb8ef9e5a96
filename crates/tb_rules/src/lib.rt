//! The twelve rules that sentences and files of a treebank keep beyond their format.
//!
//! Read `specs/Rules.antt` first, which defines each rule. `check` asks rules 1 to 11 of one sentence, and `Checker`
//! all twelve of a file, one sentence at a time.
#![tactic(auto)]

mod accepted;
mod breaking;
mod checking;
mod comments;
mod covering;
mod deps;
mod examining;
mod fault;
mod feats;
mod filefault;
mod heads;
mod ids;
mod laws;
mod matching;
mod names;
mod nodes;
mod rule;
mod sentences;
mod spans;
mod spelling;
mod taking;
mod tree;
mod words;

pub use breaking::{BrokenRule, broken_rules};
pub use checking::check;
pub use comments::{sent_id, sent_id_ref, text};
pub use examining::Examiner;
pub use fault::RuleFault;
pub use filefault::FileFault;
pub use laws::{
    a_broken_rule_is_not_kept, a_fault_stays, broken_rules_are_reported,
    broken_rules_of_a_file_are_reported, faulty_sentences_are_not_valid, one_rule_is_reported,
    one_sentence_is_reported,
};
pub use sentences::SentenceChecker;
pub use spelling::restored;
pub use taking::{Checker, check_all};
