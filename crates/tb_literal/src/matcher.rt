//! A literal with its compiled pattern, and the cache with which a search tests values.

ghost use Rattle.std.specs.Prelude.{◌≡◌, None, IfOk, IfErr, IfSome, IsOk, IsSome};
ghost use Rattle.std.specs.List.{list_any};
ghost use Rattle.tb_literal.specs.Literals.{IsAccepted, IsPlainText, meets};
ghost use Rattle.tb_literal.specs.Items.{pieces, meets_item};

use crate::cutting::cut;
use crate::pattern::{PatternFault, compile, compile_unless_plain, finds};
use regex::{Matcher, Regex};
use std::alloc::{AllocError, Global};
use std::fmt;
use std::marker::Model;
use tb_syntax::Flag;

/// A literal with its compiled pattern. Contracts see the literal alone.
#[derive(Drop)]
pub struct LiteralMatcher {
    text: String,
    flag: Flag,
    // None with `%l`, and for a text that fits no value but itself.
    built: Option<Box<Regex>>,
}

impl Model for LiteralMatcher {
    ghost use Rattle.std.specs.Prelude.{string_bytes};
    ghost use Rattle.tb_literal.specs.Literals.{PlainLit};

    ghost Value = { PlainLit };

    ghost use Rattle.tb_literal.specs.Built.{IsPatternFor};

    ghost view = { λ n. record { text = string_bytes n.text; flag = n.flag } };

    ghost invariant = { λ n. IsPatternFor n.flag (string_bytes n.text) n.built };
}

impl fmt::Debug for LiteralMatcher {
    fn fmt<W: fmt::Write>(&self, f: &mut fmt::Formatter<W>) -> fmt::Result {
        f.debug_struct("LiteralMatcher")
            .field("text", &self.text)
            .field("flag", &self.flag)
            .finish()
    }
}

/// A literal with the cache that a search writes to. It is made once for a search, and used for each value.
#[derive(Drop)]
pub struct LiteralCache<'n> {
    text: &'n str,
    flag: Flag,
    matcher: Option<Box<Matcher<'n>>>,
}

impl<'n> Model for LiteralCache<'n> {
    ghost use Rattle.tb_literal.specs.Literals.{PlainLit};

    ghost Value = { PlainLit };

    ghost use Rattle.tb_literal.specs.Built.{SearchesFor};

    ghost view = { λ t. record { text = t.text.now; flag = t.flag } };

    ghost invariant = { λ t. SearchesFor t.flag t.text.now t.matcher };
}

impl LiteralMatcher {
    ghost use Rattle.std.specs.Prelude.{string_bytes};

    /// Compiles the literal to at most `most` bytes.
    ///
    /// With `%l` nothing is compiled, and each text is accepted.
    ///
    /// # Errors
    ///
    /// `Syntax`, where the text is no pattern; `Memory`, where memory was refused or the pattern needs more bytes.
    pub fn new(
        alloc: Global,
        text: String,
        flag: Flag,
        most: usize,
    ) -> Result<LiteralMatcher, PatternFault>
        ensures value { IfOk result (λ n. n ≡ record { text = string_bytes text; flag = flag }) }
        ensures accepted { IfOk result (λ _. IsAccepted flag (string_bytes text)) }
        ensures refused { IfErr result (λ e. e ≡ PatternFault.Syntax → IsAccepted flag (string_bytes text)
            → ⊥) }
        ensures literal { flag ≡ Flag.Literal → IsOk result }
    {
        let built = match flag {
            Flag::Plain => compile_unless_plain(alloc, text.as_str(), most)?,
            Flag::NoCase => Some(compile(alloc, text.as_str(), true, most)?),
            Flag::Literal => None,
        };
        Ok(LiteralMatcher { text, flag, built })
    }

    /// The literal's text, without its quotes.
    pub fn text(&self) -> &str
        ensures { result.now ≡ self.now.text }
    {
        self.text.as_str()
    }

    /// How the literal is compared.
    pub fn flag(&self) -> Flag
        ensures { result ≡ self.now.flag }
    {
        self.flag
    }

    /// The text of a literal that fits no value but its own text; else none.
    pub fn plain_text(&self) -> Option<&str>
        ensures text { IfSome result (λ t. t.now ≡ self.now.text) }
        ensures alone { IfSome result (λ _. IsPlainText self.now) }
        ensures literal { self.now.flag ≡ Flag.Literal → IsSome result }
        ensures no_case { self.now.flag ≡ Flag.NoCase → result ≡ None }
    {
        match &self.built {
            Some(_) => None,
            None => Some(self.text.as_str()),
        }
    }

    /// What tests values against the literal. With `%l` it takes no memory.
    pub fn tester(&self, alloc: Global) -> Result<LiteralCache<'_>, AllocError>
        ensures value { IfOk result (λ t. t ≡ self.now) }
        ensures literal { self.now.flag ≡ Flag.Literal → IsOk result }
    {
        let matcher = match &self.built {
            Some(regex) => Some(Box::new(alloc, regex.matcher(alloc)?)?),
            None => None,
        };
        Ok(LiteralCache {
            text: self.text.as_str(),
            flag: self.flag,
            matcher,
        })
    }
}

impl<'n> LiteralCache<'n> {
    /// Whether the literal fits the whole value.
    #[inline]
    pub fn meets(&mut self, value: &str) -> bool
        ensures value { result ≡ meets self.old value.now }
        ensures unchanged { self.new ≡ self.old }
    {
        if self.matcher.is_some() {
            return self.meets_by_matcher(value);
        }
        value == self.text
    }

    /// The same with the regex matcher, if there is one. Out of line, so that the comparison of texts stays inline.
    #[inline(never)]
    fn meets_by_matcher(&mut self, value: &str) -> bool
        ensures value { result ≡ meets self.old value.now }
        ensures unchanged { self.new ≡ self.old }
    {
        if let Some(matcher) = &mut self.matcher {
            return finds(matcher, value);
        }
        value == self.text
    }

    /// Whether the literal fits some item of a list of features. The list `_` has none.
    pub fn meets_item(&mut self, feats: &str) -> bool
        ensures value { result ≡ meets_item self.old feats.now }
        ensures unchanged { self.new ≡ self.old }
    {
        if feats == "_" {
            return false;
        }
        self.meets_piece(feats)
    }

    /// Whether the literal fits some piece between the bars.
    fn meets_piece(&mut self, list: &str) -> bool
        ensures value { result ≡ list_any (meets self.old) (pieces list.now) }
        ensures unchanged { self.new ≡ self.old }
    {
        let mut rest = list;
        'pieces: while let Some((piece, after)) = cut(rest) {
            if self.meets(piece) {
                return true;
            }
            rest = after;
        }
        self.meets(rest)
    }
}
