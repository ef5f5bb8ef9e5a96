ghost use Rattle.std.specs.Prelude.{◌≡◌};
ghost use Rattle.tb_fields.specs.Tags.{is_universal_tag};

/// Whether the text is one of the 17 universal parts of speech.
///
/// UD v2 guidelines, "Universal POS tags".
pub fn is_tag(text: &str) -> bool
    ensures { result ≡ is_universal_tag text.now }
{
    matches!(
        text,
        "ADJ"
            | "ADP"
            | "ADV"
            | "AUX"
            | "CCONJ"
            | "DET"
            | "INTJ"
            | "NOUN"
            | "NUM"
            | "PART"
            | "PRON"
            | "PROPN"
            | "PUNCT"
            | "SCONJ"
            | "SYM"
            | "VERB"
            | "X"
    )
}
