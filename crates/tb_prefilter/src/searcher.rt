//! A searcher with a prefilter.

ghost use Rattle.std.specs.Prelude.{◌≡◌, ◌≤◌, ◌+◌, ◌*◌, ◌/◌, [], ◌∷◌, IfOk, true, false};
ghost use Rattle.tb_conllu.specs.Text.{BlockText};
ghost use Rattle.tb_conllu.specs.Reported.{IsFile};
ghost use Rattle.tb_conllu.specs.Words.{words_of};
ghost use Rattle.tb_match.specs.Weight.{weight_of};
ghost use Rattle.tb_match.specs.declared.strategy.Strategy.{Strategy as AnyStrategy};
ghost use Rattle.tb_query.specs.Search.{AreHitsIn};
ghost use Rattle.tb_prefilter.specs.Prefiltered.{HasNeedles};

use crate::prefilter::{may_hit, needles_of};
use std::alloc::{AllocError, Global};
use std::marker::Model;
use tb_conllu::{BlockOf, Text};
use tb_match::{Found, Strategy};
use tb_query::{Query, Searcher};

/// A query made ready for a search, with the needles of its prefilter.
#[derive(Drop)]
pub struct PrefilteredSearcher<'q> {
    searcher: Searcher<'q>,
    needles: Vec<Vec<u8>>,
}

impl<'q> Model for PrefilteredSearcher<'q> {
    ghost use Rattle.tb_prefilter.specs.Prefiltered.{Prefiltered, coded_prefiltered, prefiltered};

    ghost Value = { Prefiltered };

    ghost coded = { coded_prefiltered };

    ghost use Rattle.tb_prefilter.specs.Needed.{AreNeeded};

    ghost view = { λ s. prefiltered s.searcher s.needles.items };

    ghost invariant = { λ s. AreNeeded s.searcher s.needles.items };
}

impl<'q> PrefilteredSearcher<'q> {
    /// Makes a query ready.
    pub fn new(alloc: Global, query: &'q Query) -> Result<PrefilteredSearcher<'q>, AllocError>
        ensures { IfOk result (λ s. s.asked ≡ query.now) }
    {
        let searcher = query.searcher(alloc)?;
        let needles = needles_of(alloc, query)?;
        Ok(PrefilteredSearcher { searcher, needles })
    }

    /// Whether the text may be that of a sentence with a hit. Where it is not, the text need not be cut into rows.
    pub fn may_hit(&self, body: &[u8]) -> bool
        ensures none { result ≡ false → (s : AnyStrategy) (b : BlockText) → IsFile body.now (b ∷ [])
            → AreHitsIn s self.now.asked b [] }
        ensures all { result ≡ true → HasNeedles self.now body.now }
    {
        may_hit(&self.needles, body)
    }

    /// The hits of the query in the sentence, by the strategy, and the number of unions of bit rows that the search
    /// took.
    pub fn hits<T: Text>(
        &mut self,
        alloc: Global,
        block: &BlockOf<T>,
        strategy: Strategy,
    ) -> Result<Found, AllocError>
        requires { words_of block.now ≤ 1000 }
        ensures hits { IfOk result (λ f. AreHitsIn strategy self.old.asked block.now f.hits.items) }
        ensures steps { IfOk result (λ f.
            f.steps ≤ weight_of self.old.asked.pat * (words_of block.now + 1) * (words_of block.now + 2) / 2) }
        ensures unchanged { self.new ≡ self.old }
    {
        self.searcher.hits(alloc, block, strategy)
    }
}
