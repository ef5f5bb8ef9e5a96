//! Why a query finds nothing, where that can be seen. Nothing is released, its signs are meant literally, or it asks
//! for a form that only ranges have.

ghost use Rattle.std.specs.Prelude.{◌≡◌, ◌≢◌, ◌↔◌, ◌==◌, IfSome, IsTrue, MatchResult, None, is_some, not};
ghost use Rattle.tb_core.specs.Machine.{one};
ghost use Rattle.tb_core.specs.Totals.{at_state, total};
ghost use Rattle.tb_core.specs.declared.kinds.State.TheVariants.{Released};
ghost use Rattle.tb_store.specs.Calls.{Does, Gives};
ghost use Rattle.tb_store.specs.Represents.{Represents};
ghost use Rattle.tb_desk.specs.Running.{KeepsDesk};
ghost use Rattle.tb_words.specs.Explained.{BeginWith, hits_place};

use crate::ranges::Ranges;
use sqlite::Alter;
use std::alloc::Global;
use tb_core::{Fault, Totals};
use tb_match::Strategy;
use tb_query::parse;
use tb_store::Desk;
use tb_words::{
    Words, forms_asked, with_signs_as_they_stand, words_of_hits, words_of_range,
    words_of_unreleased,
};

/// The words for a query that has so many hits where its signs are taken literally. Of none nothing is said.
fn words_where_hits(alloc: Global, query: &str, hits: u64) -> Option<Words>
    ensures found { is_some result ≡ not (hits == 0) }
    ensures place { IfSome result (λ words. BeginWith words (hits_place query.now hits)) }
{
    if hits == 0 {
        return None;
    }
    Some(words_of_hits(alloc, query, hits))
}

/// The words for a query that has hits where its signs are taken literally.
fn hits_as_it_stands<S: Alter>(
    rt: &HostRuntime,
    desk: &mut Desk<S>,
    text: &str,
    strategy: Strategy,
) -> Result<Option<Words>, Fault>
    ensures read { KeepsDesk S.Store desk.old desk.new }
    ensures stays { Does S.Store desk.old desk.new result (λ s. Represents S.Store desk.new s) }
{
    let Some(other) = with_signs_as_they_stand(rt.alloc(), text) else {
        return Ok(None);
    };
    let Ok(query) = parse(rt.alloc(), other.as_str()) else {
        return Ok(None);
    };
    let hits = desk.number(&query, strategy)?;
    Ok(words_where_hits(rt.alloc(), other.as_str(), hits))
}

/// A form of the query that a range of the released text has.
fn form_of_a_range<S: Alter>(rt: &HostRuntime, desk: &mut Desk<S>, text: &str) -> Option<Words>
    ensures { KeepsDesk S.Store desk.old desk.new }
{
    let forms = forms_asked(rt.alloc(), text)?;
    if forms.is_empty() {
        return None;
    }
    let mut ranges = Ranges::new(rt.alloc(), forms);
    desk.export_released(&mut ranges).ok()?;
    Some(words_of_range(rt.alloc(), ranges.found()?))
}

/// Whether sentences are released, by these totals.
fn count_released(totals: Totals) -> bool
    ensures { IsTrue result ↔ (at_state totals.sentences Released ≢ 0) }
{
    let [_, _, _, _, released, _] = totals.sentences;
    released != 0
}

/// Whether the desk has released sentences.
fn has_released<S: Alter>(desk: &mut Desk<S>) -> Result<bool, Fault>
    ensures read { KeepsDesk S.Store desk.old desk.new }
    ensures released { Gives S.Store desk.old desk.new result (λ s b. IsTrue b ↔ (total one s Released ≢ 0)) }
    ensures stays { Does S.Store desk.old desk.new result (λ s. Represents S.Store desk.new s) }
{
    let totals = desk.totals()?;
    Ok(count_released(totals))
}

/// The words for a desk without released sentences, by what it said of them. They are said only where it has none.
fn words_where_none(released: Result<bool, Fault>) -> Option<Words>
    ensures { MatchResult released (λ has. is_some result ≡ not has) (λ _. result ≡ None) }
{
    match released {
        Ok(false) => Some(words_of_unreleased()),
        Ok(true) | Err(_) => None,
    }
}

/// The words for a desk without released sentences. Nothing that reads released text finds any there.
pub(crate) fn unreleased<S: Alter>(desk: &mut Desk<S>) -> Option<Words>
    ensures { KeepsDesk S.Store desk.old desk.new }
{
    words_where_none(has_released(desk))
}

/// The reason why a query finds nothing in released text, if one can be seen.
fn words_of_query<S: Alter>(
    rt: &HostRuntime,
    desk: &mut Desk<S>,
    text: &str,
    strategy: Strategy,
) -> Option<Words>
    ensures { KeepsDesk S.Store desk.old desk.new }
{
    match hits_as_it_stands(rt, desk, text, strategy) {
        Ok(Some(words)) => Some(words),
        Ok(None) => form_of_a_range(rt, desk, text),
        Err(_) => None,
    }
}

/// The reason why a query finds nothing, if one can be seen. A read that fails is the last.
pub(crate) fn words_of_nothing<S: Alter>(
    rt: &HostRuntime,
    desk: &mut Desk<S>,
    text: &str,
    strategy: Strategy,
) -> Option<Words>
    ensures { KeepsDesk S.Store desk.old desk.new }
{
    match has_released(desk) {
        Ok(true) => words_of_query(rt, desk, text, strategy),
        Ok(false) => Some(words_of_unreleased()),
        Err(_) => None,
    }
}
