//! Looks for the forms of ranges in a file that is written to it.

ghost use Rattle.std.specs.Prelude.{◌≡◌, ◌≢◌, ◌↔◌, ◌<◌, [], IsOk, IsTrue, MatchOption, None, OnErr, OnOk, length};
ghost use Rattle.std.specs.List.{AllWithin, HoldsAt};
ghost use Rattle.tb_desk.specs.Explaining.{with_byte};

use std::alloc::{AllocError, Global};
use std::io::{self, Write};

/// How many bytes of a line are kept. The forms that a query can ask for are shorter.
const LONGEST: usize = 4096;

/// A sink that receives a file, and looks in it for ranges with one of the forms.
#[derive(Drop)]
pub(crate) struct Ranges<'a> {
    forms: Vec<&'a str>,
    line: Vec<u8>,
    /// Which of the forms was found.
    found: Option<usize>,
}

/// The form of a range, if the line is one's.
fn range_form(line: &str) -> Option<&str> {
    let (id, rest) = line.split_once('\t')?;
    if id.starts_with('#') || !id.contains('-') {
        return None;
    }
    rest.split('\t').next()
}

fn is_same(asked: &str, form: &str) -> bool
    ensures { IsTrue result ↔ (asked.now ≡ form.now) }
{
    *asked == *form
}

/// The first place of a form in the list of forms.
fn place_of(forms: &[&str], form: &str) -> Option<usize>
    ensures { MatchOption result (AllWithin (λ asked. asked.now ≢ form.now) forms.now 0 (length forms.now))
        (λ at. HoldsAt (λ asked. asked.now ≡ form.now) forms.now at
        × AllWithin (λ asked. asked.now ≢ form.now) forms.now 0 at) }
{
    for at in 0..forms.len() {
        if is_same(forms[at], form) {
            return Some(at);
        }
    }
    None
}

impl<'a> Ranges<'a> {
    pub(crate) fn new(alloc: Global, forms: Vec<&'a str>) -> Ranges<'a>
        ensures forms { result.forms ≡ forms.entry }
        ensures begins { (result.line.items ≡ []) × (result.found ≡ None) }
    {
        Ranges {
            forms,
            line: Vec::new(alloc),
            found: None,
        }
    }

    /// A form that a range has, if one has it.
    pub(crate) fn found(&self) -> Option<&'a str>
        ensures { self.now.found ≡ None → result ≡ None }
    {
        let place = self.found?;
        self.forms.get(place).copied()
    }

    /// Looks at the line that is now complete.
    fn look(&mut self)
        ensures { (self.new.forms ≡ self.old.forms) × (self.new.line ≡ self.old.line) }
    {
        let line = str::from_utf8(self.line.as_slice()).unwrap_or("");
        if let Some(form) = range_form(line) {
            self.found = place_of(self.forms.as_slice(), form).or(self.found);
        }
    }

    /// Keeps a byte of a line, up to so many. A line feed ends the line.
    fn take(&mut self, byte: u8) -> Result<(), AllocError>
        ensures ended { byte ≡ 10 → IsOk result × (self.new.line.items ≡ []) }
        ensures kept { byte ≢ 10 → OnOk result (self.new.line.items ≡ with_byte self.old.line.items byte) }
        ensures found { byte ≢ 10 → self.new.found ≡ self.old.found }
        ensures memory { OnErr result (length self.old.line.items < 4096) }
        ensures forms { self.new.forms ≡ self.old.forms }
    {
        if byte == b'\n' {
            self.look();
            self.line.clear();
        } else if self.line.len() < LONGEST {
            self.line.push(byte)?;
        }
        Ok(())
    }
}

impl Write for Ranges<'_> {
    fn write(&mut self, buf: &[u8]) -> io::Result<usize> {
        for byte in buf {
            self.take(*byte)?;
        }
        Ok(buf.len())
    }

    fn flush(&mut self) -> io::Result<()> {
        Ok(())
    }
}
