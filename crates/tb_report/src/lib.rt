//! Reports what a search found: keyword lines, keys of hits, frequency tables and CSV. It also lists the faults of a
//! file.
//!
//! Read `specs/Keywords.antt` and `specs/Tables.antt` first. Then read `kwic` in `keyword.rt` and `Freq` in
//! `freq.rt`.
#![tactic(auto)]

mod counts;
mod csvs;
mod fault;
mod faults;
mod freq;
mod keys;
mod keyword;
mod laws;
mod table;
mod words;

pub use fault::ReportFault;
pub use faults::{FaultRow, faults_text};
pub use freq::Freq;
pub use keys::KeyWalk;
pub use keyword::{key, kwic, kwic_named, word_key};
pub use laws::{
    counts_sum_to_keys, keys_have_one_table, order_of_keys_is_nothing, table_has_one_ranking,
    tables_add_up,
};
pub use table::{Table, TableRow, put_row, rows_text, write_csv};
