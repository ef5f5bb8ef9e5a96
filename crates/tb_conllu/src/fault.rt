ghost use Rattle.tb_conllu.specs.declared.fault.ReadFault.TheVariants.{Memory};
ghost use Rattle.std.specs.Prelude.{◌≡◌, Some, codes};
ghost use Rattle.tb_conllu.specs.FaultText.{code_text, fault_text};

use std::alloc::{AllocError, AllocFailed};
use std::error::Error;
use std::fmt;

/// Why a file is not read.
#[derive(Debug, Drop)]
pub enum ReadFault {
    /// The first line, counted from 1, after which no continuation is a file, and its least code. This is 1 to 9, or 10
    /// where only the end is at fault.
    At { line: usize, code: u8 },
    /// Memory ran out.
    Memory,
}

/// What a code says of its line.
fn meaning(code: u8) -> &'static str
    ensures { result.now ≡ code_text code }
{
    match code {
        1 => "it is not UTF-8",
        2 => "it is not in Unicode normalization form NFC",
        3 => "it has a control character other than a tab",
        4 => "it has not ten fields, each of them filled and one tab between two",
        5 => "its ID is neither n, nor n-m, nor i.k",
        6 => "a field other than FORM, LEMMA and MISC has white space",
        7 => "its HEAD is neither _ nor a number",
        8 => "it is a comment after a word line of its sentence",
        9 => "it is blank, and no word line came before it",
        _ => "the file ends without a blank line after its last sentence",
    }
}

impl fmt::Display for ReadFault {
    ghost output = { λ e. Some (fault_text e) };

    fn fmt<W: fmt::Write>(&self, f: &mut fmt::Formatter<W>) -> fmt::Result {
        match self {
            ReadFault::At { line, code } => {
                write!(f, "line {line}: {} (code {code})", meaning(*code))
            }
            ReadFault::Memory => f.write_str("out of memory"),
        }
    }
}

impl Error for ReadFault {}

impl From<AllocError> for ReadFault {
    ghost from_gives = { λ _ e. e ≡ Memory };

    fn from(_: AllocError) -> Self {
        ReadFault::Memory
    }
}

impl<T: Drop> From<AllocFailed<T>> for ReadFault {
    ghost from_gives = { λ _ e. e ≡ Memory };

    fn from(_: AllocFailed<T>) -> Self {
        ReadFault::Memory
    }
}

/// The writer failed.
#[derive(Clone, Copy, Debug, PartialEq, Eq)]
pub struct WriteFault;

impl fmt::Display for WriteFault {
    ghost output = { λ _. Some (codes "the writer failed") };

    fn fmt<W: fmt::Write>(&self, f: &mut fmt::Formatter<W>) -> fmt::Result {
        f.write_str("the writer failed")
    }
}

impl Error for WriteFault {}
