//! The literals of a query's text.

ghost use Rattle.std.specs.Prelude.{◌≡◌, ◌≢◌, ◌++◌, ◌≤◌, chars, false, IfOk, IfSome, None, not, OnOk, option_to_list, Some};
ghost use Rattle.std.specs.Prelude.{true};
ghost use Rattle.std.specs.Str.{IsCharBoundary};
ghost use Rattle.tb_syntax.specs.Spelling.{is_quote};
ghost use Rattle.tb_words.specs.QueryLiterals.{AreLiterals, begun, is_in, literal_numbered, nothing_read, opened, written};

use std::alloc::{AllocError, Global};

/// The bytes of a text that a literal occupies, with its quotes.
#[derive(Clone, Copy)]
pub(crate) struct Literal {
    pub(crate) start: usize,
    pub(crate) end: usize,
}

/// The signs that have a meaning in a pattern, and that are often meant literally.
const SIGNS: &[char] = &['[', ']', '.', '+', '?', '(', ')'];

fn is_quote(c: char) -> bool
    ensures { result ≡ is_quote c }
{
    c == '"' || c == '\''
}

/// The quote of the literal that a character opens, if it opens one.
fn opened(c: char) -> Option<char>
    ensures { result ≡ opened c }
{
    if is_quote(c) { Some(c) } else { None }
}

/// The state of a scan from the front: whether a literal is open, and whether a quote that may close it has just come.
#[derive(Clone, Copy)]
struct Reading {
    quote: Option<char>,
    start: usize,
    is_shut: bool,
}

impl Reading {
    fn new() -> Reading
        ensures { result ≡ nothing_read }
    {
        Reading {
            quote: None,
            start: 0,
            is_shut: false,
        }
    }

    /// Begins anew at a character, which may open a literal.
    fn begin(&mut self, at: usize, c: char)
        ensures { self.new ≡ begun at c }
    {
        self.quote = opened(c);
        self.start = at;
        self.is_shut = false;
    }

    /// Reads a character. Returns the literal that ends just before it, if one does.
    fn take(&mut self, at: usize, c: char) -> Option<Literal>
        ensures literal { IfSome result (λ l. (l.start ≡ self.old.start) × (l.end ≡ at)
            × (self.old.is_shut ≡ true) × (self.old.quote ≢ Some c)) }
        ensures quote { self.old.quote ≡ Some c → (self.new.is_shut ≡ not self.old.is_shut)
            × (self.new.start ≡ self.old.start) × (self.new.quote ≡ self.old.quote) }
        ensures inside { self.old.quote ≢ None → self.old.quote ≢ Some c → self.old.is_shut ≡ false
            → self.new ≡ self.old }
        ensures closed { self.old.quote ≢ None → self.old.quote ≢ Some c → self.old.is_shut ≡ true
            → (result ≢ None) × (self.new ≡ begun at c) }
        ensures outside { self.old.quote ≡ None → (result ≡ None) × (self.new ≡ begun at c) }
    {
        let Some(quote) = self.quote else {
            self.begin(at, c);
            return None;
        };
        if c == quote {
            self.is_shut = !self.is_shut;
            return None;
        }
        if !self.is_shut {
            return None;
        }
        let ended = Literal {
            start: self.start,
            end: at,
        };
        self.begin(at, c);
        Some(ended)
    }

    /// The literal that ends at the end of the text, if one does.
    fn end(&self, length: usize) -> Option<Literal>
        ensures literal { IfSome result (λ l. (l.start ≡ self.now.start) × (l.end ≡ length)
            × (self.now.is_shut ≡ true)) }
        ensures left { result ≡ None → self.now.quote ≢ None → self.now.is_shut ≡ false }
    {
        if self.quote.is_none() || !self.is_shut {
            return None;
        }
        Some(Literal {
            start: self.start,
            end: length,
        })
    }
}

/// Adds a literal that has ended, if one has.
fn push_ended(found: &mut Vec<Literal>, ended: Option<Literal>) -> Result<(), AllocError>
    ensures { OnOk result (found.new.items ≡ found.old.items ++ option_to_list ended) }
{
    match ended {
        Some(literal) => {
            found.push(literal)?;
            Ok(())
        }
        None => Ok(()),
    }
}

/// The literals of a text that are closed, in order.
pub(crate) fn literals(alloc: Global, text: &str) -> Result<Vec<Literal>, AllocError>
    ensures { IfOk result (λ found. AreLiterals 0 (chars text.now) found.items) }
{
    let mut found = Vec::new(alloc);
    let mut reading = Reading::new();
    for (at, c) in text.char_indices() {
        push_ended(&mut found, reading.take(at, c))?;
    }
    push_ended(&mut found, reading.end(text.len()))?;
    Ok(found)
}

/// Whether a byte of the text lies in a literal.
pub(crate) fn holds(literals: &[Literal], at: usize) -> bool
    ensures { result ≡ is_in literals.now at }
{
    literals
        .iter()
        .any(|literal| literal.start <= at && at < literal.end)
}

/// The literal with this number, counted from 1.
pub(crate) fn numbered(literals: &[Literal], number: u64) -> Option<Literal>
    ensures { result ≡ literal_numbered literals.now number }
{
    if number == 0 {
        return None;
    }
    literals.get((number - 1) as usize).copied()
}

/// The literal as it is written, with its quotes.
pub(crate) fn written(text: &str, literal: Literal) -> &str
    ensures { IsCharBoundary text.now literal.start → IsCharBoundary text.now literal.end
        → literal.start ≤ literal.end → result.now ≡ written text.now literal }
{
    text.get(literal.start..literal.end).unwrap_or("")
}

fn after(text: &str, literal: Literal) -> &str {
    text.get(literal.end..).unwrap_or("").trim_start()
}

/// Whether a literal has signs with a meaning of their own, and neither a flag nor a backslash.
fn has_signs(text: &str, literal: Literal) -> bool {
    let value = written(text, literal);
    value.contains(SIGNS) && !value.contains('\\') && !after(text, literal).starts_with('%')
}

/// The query with each literal that has signs taken literally, by `%l`; `None` where no literal has any.
pub fn with_signs_as_they_stand(alloc: Global, text: &str) -> Option<String> {
    let mut made = String::new(alloc);
    let mut copied = 0;
    let mut has_any = false;
    let found = literals(alloc, text).ok()?;
    for literal in found.as_slice() {
        if has_signs(text, *literal) {
            made.push_str(text.get(copied..literal.end)?).ok()?;
            made.push_str("%l").ok()?;
            copied = literal.end;
            has_any = true;
        }
    }
    made.push_str(text.get(copied..)?).ok()?;
    if has_any { Some(made) } else { None }
}

/// Whether the text before a literal asks for a column other than `word`.
fn asks_another(before: &str) -> bool {
    let before = before.trim_end();
    match before.strip_suffix('=') {
        Some(test) => !test.trim_end().ends_with("word"),
        None => before.ends_with("contains"),
    }
}

/// The forms that a query names between the quotes of its literals, where they are values of `word`.
pub fn forms_asked<'a>(alloc: Global, text: &'a str) -> Option<Vec<&'a str>> {
    let mut forms = Vec::new(alloc);
    for literal in literals(alloc, text).ok()?.as_slice() {
        if asks_another(text.get(..literal.start)?) {
            continue;
        }
        let inside = text.get(literal.start.saturating_add(1)..literal.end.saturating_sub(1));
        forms.push(inside.unwrap_or("")).ok()?;
    }
    Some(forms)
}
