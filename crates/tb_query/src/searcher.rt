//! A query that is prepared for a search.

ghost use Rattle.std.specs.Prelude.{◌≡◌, ◌+◌, ◌*◌, ◌/◌, ◌≤◌, IfOk, IsOk, length, map};
ghost use Rattle.tb_conllu.specs.Words.{words_of};
ghost use Rattle.tb_match.specs.Trees.{tree};
ghost use Rattle.tb_match.specs.Weight.{weight_of};
ghost use Rattle.tb_syntax.specs.Exprs.{test};
ghost use Rattle.tb_query.specs.Search.{Asked, IsSearchable, IsTruthOf, AreHitsIn};

use crate::expr::Expr;
use crate::filling::fill;
use crate::prepared::{PreparedExpr, prepare_exprs};
use std::alloc::{AllocError, Global};
use std::marker::Model;
use tb_conllu::{BlockOf, Text, words};
use tb_match::{Found, Pat, Strategy, Truth, find};

/// A query, prepared with the caches that a search writes to. It is made once for a search, and used for each sentence.
#[derive(Drop)]
pub struct Searcher<'q> {
    pat: &'q Pat,
    prepared_exprs: Vec<PreparedExpr<'q>>,
}

impl<'q> Model for Searcher<'q> {
    ghost use Rattle.std.specs.Prelude.{map};
    ghost use Rattle.tb_match.specs.Trees.{tree};
    ghost use Rattle.tb_query.specs.Search.{Asked, IsSearchable};

    ghost Value = { Asked };

    ghost use Rattle.tb_query.specs.Codes.{coded_asked};

    ghost coded = { coded_asked };

    ghost use Rattle.tb_query.specs.PreparedExprs.{asked};

    ghost view = { λ s. record { pat = tree s.pat.now; tests = map asked s.prepared_exprs.items } };

    ghost invariant = { λ s. IsSearchable (record { pat = tree s.pat.now; tests = map asked s.prepared_exprs.items }) };
}

impl<'q> Searcher<'q> {
    /// Prepares the parts of a query for a search.
    pub(crate) fn new(
        alloc: Global,
        pat: &'q Pat,
        exprs: &'q [Expr],
    ) -> Result<Searcher<'q>, AllocError>
        requires { IsSearchable (record { pat = tree pat.now; tests = map test exprs.now }) }
        ensures { IfOk result (λ s. s ≡ record { pat = tree pat.now; tests = map test exprs.now }) }
    {
        let prepared_exprs = prepare_exprs(alloc, exprs)?;
        Ok(Searcher {
            pat,
            prepared_exprs,
        })
    }

    /// Which expressions hold of which words of the sentence.
    pub fn truth<T: Text>(&mut self, alloc: Global, block: &BlockOf<T>) -> Result<Truth, AllocError>
        requires { words_of block.now ≤ 1000 }
        ensures truth { IfOk result (λ t. IsTruthOf self.old.tests block.now t) }
        ensures sure { length self.old.tests * words_of block.now ≡ 0 → IsOk result }
        ensures unchanged { self.new ≡ self.old }
    {
        let exprs = self.prepared_exprs.len() as u16;
        let mut truth = Truth::new(alloc, words(block), exprs)?;
        fill(&mut self.prepared_exprs, &block.rows, &mut truth);
        Ok(truth)
    }

    /// The hits of the query in the sentence, by the strategy, and the number of unions of bit rows that the search
    /// took.
    pub fn hits<T: Text>(
        &mut self,
        alloc: Global,
        block: &BlockOf<T>,
        strategy: Strategy,
    ) -> Result<Found, AllocError>
        requires { words_of block.now ≤ 1000 }
        ensures hits { IfOk result (λ f. AreHitsIn strategy self.old block.now f.hits.items) }
        ensures steps { IfOk result (λ f.
            f.steps ≤ weight_of self.old.pat * (words_of block.now + 1) * (words_of block.now + 2) / 2) }
        ensures unchanged { self.new ≡ self.old }
    {
        let truth = self.truth(alloc, block)?;
        find(alloc, self.pat, &truth, strategy)
    }
}
