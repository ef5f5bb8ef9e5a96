//! Laws of frequency tables. Each function does nothing: its contract is the law.

ghost use Rattle.std.specs.Prelude.{◌≡◌, ℕ, ◌+◌, List, ◌++◌, length};
ghost use Rattle.std.specs.List.Sorted.{IsPermutation};
ghost use Rattle.tb_report.specs.Tables.{IsRankingOf, IsTableOf, Row, count_in, total_of};

/// A list of keys has exactly one table.
pub fn keys_have_one_table()
    ensures { (keys : List (List ℕ)) (table other : List Row) → IsTableOf keys table → IsTableOf keys other
        → table ≡ other }
{}

/// The order of the keys does not matter: permuted keys have the same table.
pub fn order_of_keys_is_nothing()
    ensures { (keys moved : List (List ℕ)) (table : List Row) → IsPermutation keys moved → IsTableOf keys table
        → IsTableOf moved table }
{}

/// The table of two lists one after the other is the sum of their tables.
pub fn tables_add_up()
    ensures { (keys more : List (List ℕ)) (first second both : List Row) → IsTableOf keys first
        → IsTableOf more second → IsTableOf (keys ++ more) both
        → (key : List ℕ) → count_in both key ≡ count_in first key + count_in second key }
{}

/// The counts of a table sum to the number of keys that were counted.
pub fn counts_sum_to_keys()
    ensures { (keys : List (List ℕ)) (table : List Row) → IsTableOf keys table → total_of table ≡ length keys }
{}

/// A table has exactly one ranking.
pub fn table_has_one_ranking()
    ensures { (table rows others : List Row) → IsRankingOf table rows → IsRankingOf table others
        → rows ≡ others }
{}
