//! Literals and values. The expected answers follow from the documentation of Rust's regex crate, the manual of CQP
//! and the CoNLL-U format page. They were worked out by hand.

use crate::cases::assert_answers;
use crate::literals::{fits, needle};
use crate::questions::TextQuestion;
use crate::telling::{assert_holds, assert_same, assert_text};
use std::alloc::Global;
use std::process::Abort;
use tb_literal::{LiteralCache, LiteralMatcher};
use tb_syntax::Flag;

/// A pattern matches the whole value. A text without signs fits itself alone. Classes are those of Unicode, and a dot
/// is one character. An underscore is a value like any other. A dot does not match a line feed, and the end of a line
/// is not the end of the value. The empty pattern fits the empty value alone.
const PLAIN: &str = r"a|ab at ab => yes
a|ab at a => yes
a at ab => no
b at ab => no
a|b at cb => no
go at go => yes
go at Go => no
g. at go => yes
.*ing at singing => yes
.*ing at ing => yes
.*ing at things => no
NOUN at NOUN => yes
NOUN at NOUNS => no
NOUN at PRONOUN => no
NOUN at noun => no
Straße at Straße => yes
Straße at Strasse => no
it's 5 at it's 5 => yes
\p{Lu}.* at Straße => yes
\p{Lu}.* at straße => no
stra.e at straße => yes
stra..e at straße => no
über at ÜBER => no
_ at _ => yes
1×a.b␣at␣a␤b => no
1×a␣at␣a␤ => no
1×(?m)^a$␣at␣b␤a => no
.* at  => yes
 at  => yes
 at a => no";

/// Case is that of Unicode.
const NO_CASE: &str = r"NOUN at noun => yes
go at Go => yes
GO at go => yes
go|stop at STOP => yes
go at gone => no
über at ÜBER => yes
g(?-i:o) at Go => yes
g(?-i:o) at GO => no
 at  => yes
 at   => no";

/// With `%l` the text is the value.
const LITERAL: &str = r"g. at Go => no
g. at go => no
g. at g. => yes
g. at G. => no
( at ( => yes
a|b at a => no
 at  => yes
 at a => no";

/// A comma separates the values of one item. An underscore means that there is no item.
const PLAIN_ITEMS: &str = "\
    Number=Plur at Case=Nom|Number=Plur => yes\n\
    Case=Nom at Case=Nom|Number=Plur => yes\n\
    Case=Nom at Abbr=Yes|Case=Nom|Number=Plur => yes\n\
    Number=Plur at Number=Plur => yes\n\
    Plur at Case=Nom|Number=Plur => no\n\
    Number=.* at Case=Nom|Number=Plur => yes\n\
    Case=.*Plur at Case=Nom|Number=Plur => no\n\
    Case=Nom.Number=Plur at Case=Nom|Number=Plur => no\n\
    number=plur at Case=Nom|Number=Plur => no\n\
    PronType=Int at PronType=Int,Rel => no\n\
    PronType=Int,Rel at PronType=Int,Rel => yes\n\
    _ at _ => no\n\
    .* at _ => no\n";

const NO_CASE_ITEMS: &str = "number=plur at Case=Nom|Number=Plur => yes";

const LITERAL_ITEMS: &str = "\
    Number=Plur at Case=Nom|Number=Plur => yes\n\
    Case=Nom|Number=Plur at Case=Nom|Number=Plur => no\n\
    _ at _ => no\n";

/// The second to fourth are no pattern alone, but are one when wrapped. The next two are no pattern when wrapped, but
/// are one alone, since a comment runs to the end of a line. Then nests: each pair of parentheses is a level, and the
/// wrapping adds two; regex allows 250. The last two are too large, which is reported as want of memory.
const REFUSED: &str = r"( => Some(Syntax)
a)|(b => Some(Syntax)
a)|(?:b => Some(Syntax)
)( => Some(Syntax)
(?x)a# => Some(Syntax)
(?x) a # b => Some(Syntax)
[ => Some(Syntax)
* => Some(Syntax)
a{2,1} => Some(Syntax)
\p{Nothing} => Some(Syntax)
\8 => Some(Syntax)
248×( a 248×) => None
249×( a 249×) => Some(Syntax)
1000×( a 1000×) => Some(Syntax)
(a{1000}){1000} => Some(Memory)
a{4294967295} => Some(Memory)";

/// With `%l` no text is refused.
const TAKEN: &str = r"( => None
a)|(b => None
a)|(?:b => None
)( => None
(?x)a# => None
(?x) a # b => None
[ => None
* => None
a{2,1} => None
\p{Nothing} => None
\8 => None
(a{1000}){1000} => None
a{4294967295} => None";

#[test]
fn literals_fit_values(rt: HostRuntime) {
    let tables = [
        (TextQuestion::Value(Flag::Plain), PLAIN, 30),
        (TextQuestion::Value(Flag::NoCase), NO_CASE, 10),
        (TextQuestion::Value(Flag::Literal), LITERAL, 8),
        (TextQuestion::Item(Flag::Plain), PLAIN_ITEMS, 13),
        (TextQuestion::Item(Flag::NoCase), NO_CASE_ITEMS, 1),
        (TextQuestion::Item(Flag::Literal), LITERAL_ITEMS, 3),
        (TextQuestion::Refusal(Flag::Plain), REFUSED, 16),
        (TextQuestion::Refusal(Flag::NoCase), REFUSED, 16),
        (TextQuestion::Refusal(Flag::Literal), TAKEN, 13),
    ];
    for table in &tables {
        assert_answers(&rt, rt.alloc(), &table.0, table.1, table.2);
    }
}

fn assert_value(rt: &impl Abort, cache: &mut LiteralCache<'_>, value: &str, wanted: bool) {
    assert_same(rt, &fits(cache, value, false), &wanted, value);
}

fn assert_item(rt: &impl Abort, cache: &mut LiteralCache<'_>, value: &str, wanted: bool) {
    assert_same(rt, &fits(cache, value, true), &wanted, value);
}

fn assert_values(rt: &impl Abort, cache: &mut LiteralCache<'_>) {
    assert_value(rt, cache, "a", true);
    assert_value(rt, cache, "b", false);
    assert_value(rt, cache, "AA", true);
    assert_value(rt, cache, "", false);
    assert_value(rt, cache, "ab", false);
    assert_value(rt, cache, "aAa", true);
    assert_value(rt, cache, "_", false);
    assert_item(rt, cache, "b|A|c", true);
    assert_item(rt, cache, "b|ab|", false);
    assert_item(rt, cache, "_", false);
    assert_value(rt, cache, "a", true);
}

fn assert_cache(rt: &impl Abort, alloc: Global, needle: &LiteralMatcher) {
    assert_text(rt, needle.text(), "a+", "the literal");
    assert_holds(rt, needle.flag() == Flag::NoCase, "the flag");
    let mut cache = needle.tester(alloc).expect(rt, "error");
    assert_values(rt, &mut cache);
}

#[test]
fn one_cache_serves_many_values(rt: HostRuntime) {
    let needle = needle(rt.alloc(), "a+", Flag::NoCase).expect(&rt, "error");
    assert_cache(&rt, rt.alloc(), &needle);
}
