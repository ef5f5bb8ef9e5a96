//! Finds the hits of a pattern.

ghost use Rattle.std.specs.Prelude.{◌+◌, ◌*◌, ◌/◌, ◌≤◌, IfOk, IsOk};
ghost use Rattle.tb_match.specs.Hits.{AreHits, HitsAreOneList, IsFound};
ghost use Rattle.tb_match.specs.Possible.{MayMatch};
ghost use Rattle.tb_match.specs.Trees.{tree};
ghost use Rattle.tb_match.specs.Weight.{Fits, weight_of};

use crate::hits::{hits_by, word_hits};
use crate::pattern::Pat;
use crate::possible::can_match;
use crate::relation::rows;
use crate::shape::{Shape, WIDEST};
use crate::strategy::Strategy;
use crate::truth::Truth;
use std::alloc::{AllocError, Global};

/// The answer of [`find`].
#[derive(Debug, Drop)]
pub struct Found {
    /// The hits, by first place and then by last place: `(i, j)` covers the words `i + 1` to `j`.
    pub hits: Vec<(u32, u32)>,
    /// How often one row of a table was united into another: the calls of [`unite`](crate::uniting::unite).
    ///
    /// Work without a union of two rows is not counted: walks over the places of a row, and copies and comparisons of
    /// rows. A word, an optional word or a short run of words needs no union. Its rows are marked place by place, or
    /// shifted and masked where a row is one machine word. So `[a] [b]?` takes no step.
    pub steps: u64,
}

/// The hits of the pattern in the sentence of the table, by the strategy. Also the number of unions of bit rows that
/// the search took.
///
/// A lone word is read from the table. Where a part that each match needs matches nowhere, no table is made. Otherwise
/// the search holds at most two tables of bits. It holds one more for each sequence, choice or repetition that is open
/// on the way down to a part. A table has a row for each place, and a row has a bit for each place. That is 21 machine
/// words for 20 words, and 128,128 bytes for 1,000.
///
/// The stack grows by less than 500 bytes for each level of the pattern, as compiled for x86-64. So 2 MiB hold some
/// 4,400 levels, and 8 MiB some 18,000. The caller bounds the levels: the query language allows 16 open parentheses at
/// one place, which gives at most some fifty levels.
pub fn find(
    alloc: Global,
    pat: &Pat,
    truth: &Truth,
    strategy: Strategy,
) -> Result<Found, AllocError>
    requires { Fits truth.now.exprs (tree pat.now) }
    ensures hits { IfOk result (λ f. AreHits strategy (IsFound truth.now (tree pat.now)) f.hits.items) }
    ensures none { (MayMatch truth.now (tree pat.now) → ⊥) → IsOk result }
    ensures steps { IfOk result (λ f.
        f.steps ≤ weight_of (tree pat.now) * (truth.now.words + 1) * (truth.now.words + 2) / 2) }
{
    if let Pat::Tok(expr) = pat {
        let words = word_hits(alloc, *expr, truth)?;
        return Ok(Found {
            hits: words,
            steps: 0,
        });
    }
    if !can_match(pat, truth) {
        return Ok(Found {
            hits: Vec::new(alloc),
            steps: 0,
        });
    }
    let shape = Shape::of_words(truth.words());
    let mut spare = [0; WIDEST];
    let spare = &mut spare[..shape.width];
    let mut steps = 0;
    let table = rows(alloc, pat, truth, spare, shape, &mut steps)?;
    let hits = hits_by(alloc, strategy, &table, shape)?;
    Ok(Found { hits, steps })
}

/// A law: the contract of [`find`] fixes the list of hits.
pub fn hits_are_one_list()
    ensures { HitsAreOneList }
{}
