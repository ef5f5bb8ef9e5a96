//! Which word of a command line does not have its form, where clap accepts the words but they are no command.

ghost use Rattle.std.specs.Prelude.{◌≡◌, ◌<◌, ◌↔◌, ◌⊎◌, ◌+◌, IfSome, IsTrue, None, MatchOption, false, length, min, Some};
ghost use Rattle.std.specs.Prelude.{[], codes, true};
ghost use Rattle.tb_host.specs.Contents.{BeginsWith};
ghost use Rattle.tb_host.specs.declared.causes.Form.{Form as AnyForm};
ghost use Rattle.tb_host.specs.Forms.{HasForm, IsFormOfOption, IsPlaceOf};
ghost use Rattle.tb_host.specs.Words.{HasNoValue, IsFirstWrong, IsAtOption, IsNext, IsOptionValue, IsWord};
ghost use Rattle.tb_host.specs.declared.wrong.Values.{Values as AnyValues};

use crate::causes::{Cause, Form};
use crate::diagnostics::Diagnostic;

/// A value on the command line, with its name in help.
#[derive(Clone, Copy)]
struct Given<'a> {
    name: &'a str,
    form: Option<Form>,
    value: &'a str,
}

/// The values of a command, one after another.
#[derive(Drop)]
struct Values<'a> {
    command: &'a str,
    words: &'a [String],
    /// How many values without an option precede.
    before: usize,
    /// Whether a word may still be an option.
    has_options: bool,
}

/// The form that the value of an option has to have. A path and a user may be any text.
fn form_of_option(name: &str) -> Option<Form>
    ensures { IsFormOfOption name.now result }
{
    match name {
        "--strategy" => Some(Form::Strategy),
        "--context" => Some(Form::Context),
        "--rev" => Some(Form::Number),
        "--most" => Some(Form::Most),
        "--port" => Some(Form::Port),
        "--requests" => Some(Form::Requests),
        _ => None,
    }
}

/// The value that is given to an option.
fn given_to<'a>(name: &'a str, value: &'a str) -> Given<'a>
    ensures form { IsFormOfOption name.now result.form }
    ensures same { (result.name ≡ name.entry) × (result.value ≡ value.entry) }
{
    Given {
        name,
        form: form_of_option(name),
        value,
    }
}

/// The name and the form of a value without an option, after `before` others. A query may be any text.
fn place_of(command: &str, before: usize) -> (&'static str, Option<Form>)
    ensures { IsPlaceOf command.now before result.0.now result.1 }
{
    match (command, before) {
        ("import" | "event" | "export" | "sentences", 0) => ("<name>", Some(Form::Batch)),
        ("event", 1) => ("<event>", Some(Form::Event)),
        ("correct" | "pull" | "restore" | "show" | "revisions" | "tree", 0) => {
            ("<no>", Some(Form::Number))
        }
        ("correct", 1) => ("<base>", Some(Form::Base)),
        ("count", 0) => ("<attribute>", Some(Form::Attribute)),
        _ => ("<query>", None),
    }
}

/// Whether a word is an option, where it may be one.
fn is_option(has_options: bool, word: &str) -> bool
    ensures { IsTrue result ↔ (has_options ≡ true) × BeginsWith word.now (codes "--") }
{
    has_options && word.starts_with("--")
}

/// Whether no word after this one is an option.
fn ends_options(word: &str) -> bool
    ensures { IsTrue result ↔ word.now ≡ codes "--" }
{
    word == "--"
}

impl<'a> Values<'a> {
    fn new(command: &'a str, words: &'a [String]) -> Values<'a>
        ensures words { (result.command.now ≡ command.now) × (result.words.now ≡ words.now) }
        ensures first { (result.before ≡ 0) × (result.has_options ≡ true) }
    {
        Values {
            command,
            words,
            before: 0,
            has_options: true,
        }
    }

    /// The next word.
    fn word(&mut self) -> Option<&'a str>
        ensures none { length self.old.words.now ≡ 0 → result ≡ None }
        ensures word { MatchOption result ((self.old.words.now ≡ []) × (self.new.words.now ≡ []))
            (λ word. IsWord self.old.words.now self.new.words.now word.now) }
        ensures same { (self.new.command ≡ self.old.command) × (self.new.before ≡ self.old.before)
            × (self.new.has_options ≡ self.old.has_options) }
    {
        let (first, rest) = self.words.split_first()?;
        self.words = rest;
        Some(first.as_str())
    }

    /// The next word, or an empty one after the last.
    fn word_or_empty(&mut self) -> &'a str
        ensures word { IsWord self.old.words.now self.new.words.now result.now
            ⊎ ((self.old.words.now ≡ []) × (self.new.words.now ≡ []) × (result.now ≡ [])) }
        ensures same { (self.new.command ≡ self.old.command) × (self.new.before ≡ self.old.before)
            × (self.new.has_options ≡ self.old.has_options) }
    {
        match self.word() {
            Some(word) => word,
            None => "",
        }
    }

    /// A value without an option.
    fn without_option(&mut self, value: &'a str) -> Given<'a>
        ensures place { IsPlaceOf self.old.command.now self.old.before result.name.now result.form }
        ensures value { result.value ≡ value.entry }
        ensures before { self.new.before ≡ min (self.old.before + 1) 18446744073709551615 }
        ensures same { (self.new.command ≡ self.old.command) × (self.new.words ≡ self.old.words)
            × (self.new.has_options ≡ self.old.has_options) }
    {
        let (name, form) = place_of(self.command, self.before);
        self.before = self.before.saturating_add(1);
        Given { name, form, value }
    }

    /// The value of an option, in the same word or in the next one.
    fn of_option(&mut self, word: &'a str) -> Given<'a>
        ensures form { IsFormOfOption result.name.now result.form }
        ensures value { IsOptionValue word.now self.old.words.now self.new.words.now result.name.now result.value.now }
        ensures same { (self.new.command ≡ self.old.command) × (self.new.before ≡ self.old.before)
            × (self.new.has_options ≡ self.old.has_options) }
    {
        match word.split_once('=') {
            Some((name, value)) => given_to(name, value),
            None => given_to(word, self.word_or_empty()),
        }
    }

    /// The value of an option, or the one after the word that ends the options.
    fn at_option(&mut self, word: &'a str) -> Option<Given<'a>>
        ensures form { IfSome result (λ given. IsFormOfOption given.name.now given.form
            ⊎ IsPlaceOf self.old.command.now self.old.before given.name.now given.form) }
        ensures command { self.new.command ≡ self.old.command }
        ensures at { MatchOption result ((word.now ≡ codes "--") × (self.old.words.now ≡ []))
            (IsAtOption word.now self.old self.new) }
    {
        if ends_options(word) {
            self.has_options = false;
            let value = self.word()?;
            return Some(self.without_option(value));
        }
        Some(self.of_option(word))
    }

    /// The next value.
    fn next(&mut self) -> Option<Given<'a>>
        ensures form { IfSome result (λ given. IsFormOfOption given.name.now given.form
            ⊎ IsPlaceOf self.old.command.now self.old.before given.name.now given.form) }
        ensures value { self.old.has_options ≡ false → IfSome result (λ given.
            IsPlaceOf self.old.command.now self.old.before given.name.now given.form) }
        ensures command { self.new.command ≡ self.old.command }
        ensures next { MatchOption result (HasNoValue self.old) (IsNext self.old self.new) }
    {
        let word = self.word()?;
        if is_option(self.has_options, word) {
            return self.at_option(word);
        }
        Some(self.without_option(word))
    }
}

/// The form that a value has to have, where it does not have it.
fn missed_form(given: Given<'_>) -> Option<Form>
    ensures { MatchOption result (IfSome given.entry.form (λ form. HasForm form given.entry.value.now))
        (λ form. (given.entry.form ≡ Some form) × ¬ HasForm form given.entry.value.now) }
{
    match given.form {
        Some(form) if !form.takes(given.value) => Some(form),
        _ => None,
    }
}

/// The first value that does not have its form.
fn first_wrong<'a>(command: &'a str, words: &'a [String]) -> Option<(Given<'a>, Form)>
    ensures wrong { IfSome result (λ wrong. ¬ HasForm wrong.1 wrong.0.value.now) }
    ensures first { (start : AnyValues) × (start.command.now ≡ command.now) × (start.words.now ≡ words.now)
        × (start.before ≡ 0) × (start.has_options ≡ true) × IsFirstWrong start result }
{
    let mut values = Values::new(command, words);
    for _ in 0..words.len() {
        let given = values.next()?;
        match missed_form(given) {
            Some(form) => return Some((given, form)),
            None => {}
        }
    }
    None
}

/// The value in the words that does not have its form, if one does not.
pub fn wrong_value(rt: &HostRuntime, words: &[String]) -> Option<Diagnostic>
    ensures few { length words.now < 2 → result ≡ None }
    ensures form { IfSome result (λ wrong. (form : AnyForm) × (wrong.cause ≡ Cause.Value form)) }
{
    let [_, command, rest @ ..] = words else {
        return None;
    };
    match first_wrong(command.as_str(), rest) {
        Some((given, form)) => Some(Diagnostic {
            place: format!(in rt.alloc(); "{} {}", given.name, given.value).ok(),
            cause: Cause::Value(form),
        }),
        None => None,
    }
}

/// What is wrong with words that clap accepts: a value does not have its form, or there is no command.
pub fn wrong_word(rt: &HostRuntime, program: &'static str, words: &[String]) -> Diagnostic
    ensures few { length words.now < 2 → result.cause ≡ Cause.NoCommand program.entry }
    ensures cause { (result.cause ≡ Cause.NoCommand program.entry)
        ⊎ ((form : AnyForm) × (result.cause ≡ Cause.Value form)) }
{
    match wrong_value(rt, words) {
        Some(wrong) => wrong,
        None => Diagnostic::from(Cause::NoCommand(program)),
    }
}
