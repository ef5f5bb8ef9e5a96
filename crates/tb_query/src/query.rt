//! Queries, with the matchers of their literals.

ghost use Rattle.std.specs.Prelude.{◌≡◌, ◌+◌, ◌*◌, ◌/◌, ◌≤◌, IfOk, length, map};
ghost use Rattle.tb_conllu.specs.Words.{words_of};
ghost use Rattle.tb_match.specs.Trees.{tree};
ghost use Rattle.tb_match.specs.Weight.{Fits, weight_of};
ghost use Rattle.tb_syntax.specs.Exprs.{test};
ghost use Rattle.tb_query.specs.Search.{Asked, IsSearchable, IsTruthOf, AreHitsIn};

use crate::expr::Expr;
use crate::searcher::Searcher;
use std::alloc::{AllocError, Global};
use std::marker::Model;
use tb_conllu::{BlockOf, Text};
use tb_match::{Found, Pat, Strategy, Truth};

/// A query: a pattern over token expressions, which it names by their numbers.
#[derive(Debug, Drop)]
pub struct Query {
    pat: Pat,
    exprs: Vec<Expr>,
}

impl Model for Query {
    ghost use Rattle.std.specs.Prelude.{map};
    ghost use Rattle.tb_match.specs.Trees.{tree};
    ghost use Rattle.tb_query.specs.Search.{Asked, IsSearchable};

    ghost Value = { Asked };

    ghost use Rattle.tb_query.specs.Codes.{coded_asked};

    ghost coded = { coded_asked };

    ghost use Rattle.tb_syntax.specs.Exprs.{test};

    ghost view = { λ q. record { pat = tree q.pat; tests = map test q.exprs.items } };

    ghost invariant = { λ q. IsSearchable (record { pat = tree q.pat; tests = map test q.exprs.items }) };
}

impl Query {
    /// A query from its parts.
    pub(crate) fn new(pat: Pat, exprs: Vec<Expr>) -> Query
        requires { IsSearchable (record { pat = tree pat; tests = map test exprs.items }) }
        ensures { result ≡ record { pat = tree pat; tests = map test exprs.items } }
    {
        Query { pat, exprs }
    }

    /// The pattern. It names expressions by their places in [`Query::exprs`], from 0.
    pub fn pat(&self) -> &Pat
        ensures pat { tree result.now ≡ self.now.pat }
        ensures fits { Fits (length self.now.tests) (tree result.now) }
    {
        &self.pat
    }

    /// The token expressions, in their order: at most 32.
    pub fn exprs(&self) -> &[Expr]
        ensures tests { map test result.now ≡ self.now.tests }
        ensures few { length result.now ≤ 32 }
    {
        &self.exprs
    }

    /// Prepares the query for a search over many sentences.
    pub fn searcher(&self, alloc: Global) -> Result<Searcher<'_>, AllocError>
        ensures { IfOk result (λ s. s ≡ self.now) }
    {
        Searcher::new(alloc, &self.pat, &self.exprs)
    }

    /// Which expressions hold of which words of the sentence. For many sentences, make one [`Query::searcher`].
    pub fn truth<T: Text>(&self, alloc: Global, block: &BlockOf<T>) -> Result<Truth, AllocError>
        requires { words_of block.now ≤ 1000 }
        ensures { IfOk result (λ t. IsTruthOf self.now.tests block.now t) }
    {
        let mut searcher = self.searcher(alloc)?;
        searcher.truth(alloc, block)
    }

    /// The hits of the query in the sentence, by the strategy, and the number of unions of bit rows that the search
    /// took. For many sentences, make one [`Query::searcher`].
    pub fn hits<T: Text>(
        &self,
        alloc: Global,
        block: &BlockOf<T>,
        strategy: Strategy,
    ) -> Result<Found, AllocError>
        requires { words_of block.now ≤ 1000 }
        ensures hits { IfOk result (λ f. AreHitsIn strategy self.now block.now f.hits.items) }
        ensures steps { IfOk result (λ f.
            f.steps ≤ weight_of self.now.pat * (words_of block.now + 1) * (words_of block.now + 2) / 2) }
    {
        let mut searcher = self.searcher(alloc)?;
        searcher.hits(alloc, block, strategy)
    }
}
