//! The lexemes of a query.

/// A column of a word that a test can name.
#[derive(Clone, Copy, PartialEq, Eq, Debug)]
pub enum Attr {
    /// The word itself, written `word`.
    Form,
    /// Written `lemma`.
    Lemma,
    /// Written `upos`.
    Upos,
    /// Written `xpos`.
    Xpos,
    /// Written `feats`.
    Feats,
    /// Written `deprel`.
    Deprel,
}

/// How a literal is compared with a value.
#[derive(Clone, Copy, PartialEq, Eq, Debug)]
pub enum Flag {
    /// With no mark: a pattern for the whole value.
    Plain,
    /// With `%c`: a pattern that ignores case.
    NoCase,
    /// With `%l`: the text itself, which is no pattern.
    Literal,
}

/// A lexeme of a query. It owns no text: a literal is named by its number among the literals.
#[derive(Clone, Copy, PartialEq, Eq, Debug, Default)]
pub enum Lexeme {
    /// `(`
    LeftParen,
    /// `)`
    RightParen,
    /// `[`
    LeftBracket,
    /// `]`
    RightBracket,
    /// `{`
    LeftBrace,
    /// `}`
    RightBrace,
    /// `,`
    Comma,
    /// `?`
    Quest,
    /// `*`
    Star,
    /// `+`
    Plus,
    /// `|`
    Bar,
    /// `&`
    And,
    /// `!`
    Not,
    /// `=`
    Equals,
    /// `!=`
    Differs,
    /// `;`
    Semicolon,
    /// `%c`
    PercentC,
    /// `%l`
    PercentL,
    /// The name of a column.
    Name(Attr),
    /// `contains`
    Contains,
    /// `within`
    Within,
    /// `s`
    Sentence,
    /// A number with no leading zero. A number above 255 is stored as 255.
    Number(u8),
    /// The literal with this number, counted from 0.
    Quote(u16),
    /// A run of letters or digits that no query has, or a byte that begins no lexeme.
    #[default]
    Stray,
}
