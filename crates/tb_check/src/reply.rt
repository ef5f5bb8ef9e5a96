//! The replies of the check, and their lines, which are made without memory.

ghost use Rattle.std.specs.Prelude.{◌≡◌, ◌++◌, ◌≤◌, ◌+◌, codes, decimal, length};
ghost use Rattle.arrayvec.specs.ArrayString.{array_string_len};

use arrayvec::ArrayString;

/// The reply of the check for a file.
#[derive(Clone, Copy, Debug, PartialEq, Eq)]
pub enum CheckReply {
    /// The file can be read and keeps the rules. It has this many sentences, and words in them.
    Counts { sentences: u64, words: u64 },
    /// The first line, from 1, after which no continuation is a file, and its least code.
    Read { line: u64, code: u8 },
    /// The file can be read, and a sentence breaks a rule: its number, from 1, and its least broken rule, 1 to 12. For
    /// rules 4 to 8 also its first row at fault, from 1, else 0.
    Rule { sentence: u64, rule: u8, row: u64 },
    /// The file has more bytes than the limit.
    Long,
    /// Memory was refused.
    Memory,
    /// The input could not be read.
    Device,
}

impl CheckReply {
    ghost use Rattle.tb_check.specs.Check.{reply_text, status_of};

    /// The exit status: 0 done, 1 refused, 3 memory or device.
    pub fn status(self) -> u8
        ensures { result ≡ status_of self }
    {
        match self {
            CheckReply::Counts { .. } => 0,
            CheckReply::Read { .. } | CheckReply::Rule { .. } | CheckReply::Long => 1,
            CheckReply::Memory | CheckReply::Device => 3,
        }
    }

    /// The line that is printed, with its line feed.
    pub fn line(self) -> ArrayString<80>
        ensures { result.bytes ≡ reply_text self }
    {
        match self {
            CheckReply::Counts { sentences, words } => counts_line(sentences, words),
            CheckReply::Read { line, code } => read_line(line, code),
            CheckReply::Rule {
                sentence,
                rule,
                row,
            } => rule_line(sentence, rule, row),
            CheckReply::Long => fixed_line("refused long\n"),
            CheckReply::Memory => fixed_line("refused memory\n"),
            CheckReply::Device => fixed_line("refused device\n"),
        }
    }
}

/// Appends a number in decimal digits.
fn push_number(line: &mut ArrayString<80>, number: u64)
    requires { array_string_len line.old + 20 ≤ 80 }
    ensures bytes { line.new.bytes ≡ line.old.bytes ++ decimal number }
    ensures bound { array_string_len line.new ≤ array_string_len line.old + 20 }
{
    let mut buffer = itoa::Buffer::new();
    line.push_str(buffer.format(number));
}

/// Two numbers, each with a text before it.
fn two_numbers(before: &str, one: u64, between: &str, other: u64) -> ArrayString<80>
    requires { length before.now + length between.now ≤ 24 }
    ensures bytes { result.bytes ≡ before.now ++ decimal one ++ between.now ++ decimal other }
    ensures bound { array_string_len result ≤ length before.now + length between.now + 40 }
{
    let mut line = ArrayString::new();
    line.push_str(before);
    push_number(&mut line, one);
    line.push_str(between);
    push_number(&mut line, other);
    line
}

fn counts_line(sentences: u64, words: u64) -> ArrayString<80>
    ensures { result.bytes
        ≡ codes "sentences " ++ decimal sentences ++ codes " words " ++ decimal words ++ codes "\n" }
{
    let mut line = two_numbers("sentences ", sentences, " words ", words);
    line.push_str("\n");
    line
}

fn read_line(number: u64, code: u8) -> ArrayString<80>
    ensures { result.bytes ≡ codes "refused 8 Read " ++ decimal number ++ codes " " ++ decimal code ++ codes "\n" }
{
    let mut line = two_numbers("refused 8 Read ", number, " ", u64::from(code));
    line.push_str("\n");
    line
}

fn rule_line(sentence: u64, rule: u8, row: u64) -> ArrayString<80>
    ensures { result.bytes
        ≡ codes "refused 9 Rule " ++ decimal sentence ++ codes " " ++ decimal rule ++ codes " " ++ decimal row
        ++ codes "\n" }
{
    let mut line = two_numbers("refused 9 Rule ", sentence, " ", u64::from(rule));
    line.push_str(" ");
    push_number(&mut line, row);
    line.push_str("\n");
    line
}

fn fixed_line(text: &str) -> ArrayString<80>
    requires { length text.now ≤ 80 }
    ensures { result.bytes ≡ text.now }
{
    let mut line = ArrayString::new();
    line.push_str(text);
    line
}
