//! Patterns, as the library regex compiles them.

ghost use Rattle.std.specs.Prelude.{◌≡◌, ◌≤◌, ◌+◌, List, ℕ, false, IfOk, IfErr, IfSome, Some};
ghost use Rattle.regex.specs.Strings.{regex_pattern, regex_size, matcher_pattern};
ghost use Rattle.regex_syntax.specs.declared.error.ErrorKind.TheVariants.{OutOfMemory};
ghost use Rattle.tb_literal.specs.Patterns.{IsPattern, IsWhole, finds, wrapped};
ghost use Rattle.tb_literal.specs.Built.{Means, IsPatternFor};
ghost use Rattle.tb_literal.specs.Refused.{fault_of_error};

use regex::{Matcher, Regex, RegexBuilder, escape};
use regex_syntax::{Config, ErrorKind};
use std::alloc::{AllocError, AllocFailed, Global};
use std::error::Error;
use std::fmt;
use tb_syntax::Flag;

/// Why a text is no pattern.
#[derive(Clone, Copy, PartialEq, Eq, Debug)]
pub enum PatternFault {
    /// It is not in regex's grammar or nests too deep, alone or wrapped.
    Syntax,
    /// Memory was refused, or the compiled pattern passes the limit of size.
    Memory,
}

impl fmt::Display for PatternFault {
    ghost use Rattle.tb_literal.specs.FaultText.{fault_text};

    ghost output = { λ e. Some (fault_text e) };

    fn fmt<W: fmt::Write>(&self, f: &mut fmt::Formatter<W>) -> fmt::Result {
        match self {
            PatternFault::Syntax => f.write_str("the literal is no pattern"),
            PatternFault::Memory => f.write_str("out of memory, or the pattern is too large"),
        }
    }
}

impl Error for PatternFault {}

impl From<AllocError> for PatternFault {
    ghost use Rattle.tb_literal.specs.declared.pattern.PatternFault.TheVariants.{Memory};

    ghost from_gives = { λ _ fault. fault ≡ Memory };

    fn from(_: AllocError) -> PatternFault {
        PatternFault::Memory
    }
}

impl<T: Drop> From<AllocFailed<T>> for PatternFault {
    ghost use Rattle.tb_literal.specs.declared.pattern.PatternFault.TheVariants.{Memory};

    ghost from_gives = { λ _ fault. fault ≡ Memory };

    fn from(_: AllocFailed<T>) -> PatternFault {
        PatternFault::Memory
    }
}

/// The fault for an error of regex's parser.
fn fault_of(kind: ErrorKind) -> PatternFault
    ensures syntax { result ≡ PatternFault.Syntax → kind ≡ OutOfMemory → ⊥ }
    ensures memory { result ≡ PatternFault.Memory → kind ≡ OutOfMemory }
{
    match kind {
        ErrorKind::OutOfMemory => PatternFault::Memory,
        _ => PatternFault::Syntax,
    }
}

/// Parses a text as a pattern, and compiles nothing.
fn read(alloc: Global, text: &str) -> Result<(), PatternFault>
    ensures pattern { IfOk result (λ _. IsPattern text.now) }
    ensures refused { IfErr result (λ e. e ≡ PatternFault.Syntax → IsPattern text.now → ⊥) }
{
    if let Err(error) = regex_syntax::parse(alloc, text, &Config::default()) {
        return Err(fault_of(error.kind));
    }
    Ok(())
}

/// The fault for an error of regex's builder.
fn fault_of_build(error: regex::Error) -> PatternFault
    ensures { result ≡ fault_of_error error }
{
    match error {
        regex::Error::Syntax(_) => PatternFault::Syntax,
        _ => PatternFault::Memory,
    }
}

/// Compiles a text as a pattern of at most `most` bytes.
fn build(alloc: Global, source: &str, most: usize) -> Result<Regex, PatternFault>
    ensures means { IfOk result (λ r. Means (regex_pattern r) source.now) }
    ensures pattern { IfOk result (λ _. IsPattern source.now) }
    ensures small { IfOk result (λ r. regex_size r ≤ most + 24) }
    ensures refused { IfErr result (λ e. e ≡ PatternFault.Syntax → IsPattern source.now → ⊥) }
{
    match RegexBuilder::new(source).size_limit(most).build(alloc) {
        Ok(regex) => Ok(regex),
        Err(error) => Err(fault_of_build(error)),
    }
}

/// Compiles a text as a pattern for the whole value, in a wrapping.
///
/// The text is parsed alone first, so that no part of it can reach out of its wrapping.
pub(crate) fn compile(
    alloc: Global,
    text: &str,
    no_case: bool,
    most: usize,
) -> Result<Box<Regex>, PatternFault>
    ensures means { IfOk result (λ r. Means (regex_pattern r.value) (wrapped no_case text.now)) }
    ensures small { IfOk result (λ r. regex_size r.value ≤ most + 24) }
    ensures accepted { IfOk result (λ _. IsWhole no_case text.now) }
    ensures refused { IfErr result (λ e. e ≡ PatternFault.Syntax → IsWhole no_case text.now → ⊥) }
{
    read(alloc, text)?;
    let source = if no_case {
        format!(in alloc; r"\A(?i:{text})\z")?
    } else {
        format!(in alloc; r"\A(?:{text})\z")?
    };
    let regex = build(alloc, source.as_str(), most)?;
    Ok(Box::new(alloc, regex)?)
}

/// Compiles a text as a pattern. It is none where no character of the text has a special meaning: such a text fits only
/// the equal value.
pub(crate) fn compile_unless_plain(
    alloc: Global,
    text: &str,
    most: usize,
) -> Result<Option<Box<Regex>>, PatternFault>
    ensures stands { IfOk result (λ built. IsPatternFor Flag.Plain text.now built) }
    ensures small { IfOk result (λ built. IfSome built (λ r. regex_size r.value ≤ most + 24)) }
    ensures accepted { IfOk result (λ _. IsWhole false text.now) }
    ensures refused { IfErr result (λ e. e ≡ PatternFault.Syntax → IsWhole false text.now → ⊥) }
{
    let escaped = escape(alloc, text)?;
    if escaped.as_str() == text {
        return Ok(None);
    }
    Ok(Some(compile(alloc, text, false, most)?))
}

/// Whether the pattern matches somewhere in the value.
pub(crate) fn finds(matcher: &mut Matcher<'_>, value: &str) -> bool
    ensures value { (source : List ℕ) → Means (matcher_pattern matcher.old) source
        → result ≡ finds source value.now }
    ensures unchanged { matcher_pattern matcher.new ≡ matcher_pattern matcher.old }
{
    matcher.is_match(value)
}
