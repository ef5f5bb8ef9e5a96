//! The values that a literal fits, as text.

use crate::cases::cut;
use crate::telling::yes_or_no;
use std::alloc::Global;
use std::process::Abort;
use tb_literal::{LiteralCache, LiteralMatcher, PatternFault};
use tb_syntax::Flag;

/// The literal of a text, of at most ten mebibytes.
pub(crate) fn needle(
    alloc: Global,
    text: &str,
    flag: Flag,
) -> Result<LiteralMatcher, PatternFault> {
    LiteralMatcher::new(alloc, String::from_str(alloc, text)?, flag, 10 << 20)
}

/// Whether the literal of the cache fits the value, or some item of it.
pub(crate) fn fits(cache: &mut LiteralCache<'_>, value: &str, by_items: bool) -> bool {
    if by_items {
        cache.meets_item(value)
    } else {
        cache.meets(value)
    }
}

fn literal_fits(
    rt: &impl Abort,
    alloc: Global,
    needle: &LiteralMatcher,
    value: &str,
    by_items: bool,
) -> bool {
    let mut cache = needle.tester(alloc).expect(rt, "error");
    fits(&mut cache, value, by_items)
}

/// Whether the literal before `at` fits the value after it, or some item of it.
pub(crate) fn fit(
    rt: &impl Abort,
    alloc: Global,
    text: &str,
    flag: Flag,
    by_items: bool,
) -> String {
    let (literal, value) = cut(rt, text, " at ");
    let needle = needle(alloc, literal, flag).expect(rt, "error");
    let holds = literal_fits(rt, alloc, &needle, value, by_items);
    yes_or_no(rt, alloc, holds)
}
