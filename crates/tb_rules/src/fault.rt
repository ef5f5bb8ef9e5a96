ghost use Rattle.tb_rules.specs.declared.fault.RuleFault.TheVariants.{Memory};
ghost use Rattle.std.specs.Prelude.{◌≡◌, Some};
ghost use Rattle.tb_rules.specs.FaultText.{fault_text, rule_text};

use std::alloc::AllocError;
use std::error::Error;
use std::fmt;

/// Why a sentence breaks the rules.
#[derive(Clone, Copy, Debug, PartialEq, Eq)]
pub enum RuleFault {
    /// The least broken rule, 1 to 11, and for rules 4 to 8 the first row at fault, counted from 1, else 0.
    At { rule: u8, row: usize },
    /// Memory ran out.
    Memory,
}

impl From<AllocError> for RuleFault {
    ghost from_gives = { λ _ e. e ≡ Memory };

    fn from(_: AllocError) -> Self {
        RuleFault::Memory
    }
}

/// What a rule requires.
fn meaning(rule: u8) -> &'static str
    ensures { result.now ≡ rule_text rule }
{
    match rule {
        1 => "exactly one comment gives sent_id, and its value has no white space",
        2 => "exactly one comment gives text",
        3 =>
            "words are numbered 1, 2, .. (at most 1,000), and empty nodes i.1, i.2, .. after word i",
        4 =>
            "a word has a universal UPOS, a HEAD of the sentence, and a universal DEPREL, root where HEAD is 0",
        5 =>
            "a range stands before its first word, after all ranges before, and has _ in LEMMA to DEPS",
        6 => "an empty node has _ in HEAD and DEPREL, and a universal UPOS or _",
        7 => "FEATS is _ or Name=Value items, in order and without repetition",
        8 => "DEPS is _ or head:relation items, in the order of heads that stand in the sentence",
        9 => "exactly one word has HEAD 0",
        10 => "each word comes to the root along HEAD",
        11 => "the forms spell the text, but for white space",
        _ => "no sentence before it in the file has its sent_id",
    }
}

impl fmt::Display for RuleFault {
    ghost output = { λ e. Some (fault_text e) };

    fn fmt<W: fmt::Write>(&self, f: &mut fmt::Formatter<W>) -> fmt::Result {
        match self {
            RuleFault::At { rule, row: 0 } => write!(f, "rule {rule}: {}", meaning(*rule)),
            RuleFault::At { rule, row } => {
                write!(f, "row {row}, rule {rule}: {}", meaning(*rule))
            }
            RuleFault::Memory => f.write_str("out of memory"),
        }
    }
}

impl Error for RuleFault {}
