//! The rules that a sentence keeps by itself.

ghost use Rattle.std.specs.Prelude.{◌≡◌};
ghost use Rattle.tb_rules.specs.Broken.{rule_of};
ghost use Rattle.tb_rules.specs.Rules.{number};

/// A rule that a sentence keeps by itself.
#[derive(Clone, Copy, Debug, PartialEq, Eq)]
pub(crate) enum Rule {
    SentId,
    Text,
    Ids,
    Words,
    Spans,
    Nodes,
    Features,
    Dependencies,
    OneRoot,
    Tree,
    Restored,
}

/// All rules, in the order of their numbers.
pub(crate) const RULES: [Rule; 11] = [
    Rule::SentId,
    Rule::Text,
    Rule::Ids,
    Rule::Words,
    Rule::Spans,
    Rule::Nodes,
    Rule::Features,
    Rule::Dependencies,
    Rule::OneRoot,
    Rule::Tree,
    Rule::Restored,
];

/// The number of the rule.
pub(crate) fn number_of(rule: Rule) -> u8
    ensures { result ≡ number (rule_of rule) }
{
    match rule {
        Rule::SentId => 1,
        Rule::Text => 2,
        Rule::Ids => 3,
        Rule::Words => 4,
        Rule::Spans => 5,
        Rule::Nodes => 6,
        Rule::Features => 7,
        Rule::Dependencies => 8,
        Rule::OneRoot => 9,
        Rule::Tree => 10,
        Rule::Restored => 11,
    }
}
