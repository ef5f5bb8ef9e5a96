//! Tests of the parts below the store: files, rules, queries, the machine, reports, requests and command lines.
//!
//! Read `read_tests.rt` first for files, `search_tests.rt` for queries and `order_tests.rt` for the machine. No test here
//! opens a database. `tools/examples` and `tools/queries` ask what the program prints for many more inputs.
#![tactic(auto)]

#[cfg(test)]
mod border_tests;
#[cfg(test)]
mod broken;
#[cfg(test)]
mod cases;
#[cfg(test)]
mod check_tests;
#[cfg(test)]
mod csv_tests;
#[cfg(test)]
mod decision_tests;
#[cfg(test)]
mod fault_tests;
#[cfg(test)]
mod faulty;
#[cfg(test)]
mod field_tests;
#[cfg(test)]
mod files;
#[cfg(test)]
mod hit_tests;
#[cfg(test)]
mod law_tests;
#[cfg(test)]
mod lexemes;
#[cfg(test)]
mod line_tests;
#[cfg(test)]
mod list_tests;
#[cfg(test)]
mod literals;
#[cfg(test)]
mod match_tests;
#[cfg(test)]
mod needle_tests;
#[cfg(test)]
mod order_tests;
#[cfg(test)]
mod parsing;
#[cfg(test)]
mod passage_tests;
#[cfg(test)]
mod patterns;
#[cfg(test)]
mod prefilter_tests;
#[cfg(test)]
mod queries;
#[cfg(test)]
mod questions;
#[cfg(test)]
mod read_tests;
#[cfg(test)]
mod reader_tests;
#[cfg(test)]
mod reading;
#[cfg(test)]
mod refusal_tests;
#[cfg(test)]
mod replay_tests;
#[cfg(test)]
mod reply_tests;
#[cfg(test)]
mod request_tests;
#[cfg(test)]
mod requests;
#[cfg(test)]
mod rows;
#[cfg(test)]
mod rule_tests;
#[cfg(test)]
mod samples;
#[cfg(test)]
mod search_tests;
#[cfg(test)]
mod source_tests;
#[cfg(test)]
mod spelling;
#[cfg(test)]
mod taking_tests;
#[cfg(test)]
mod telling;
#[cfg(test)]
mod text_tests;
#[cfg(test)]
mod total_tests;
#[cfg(test)]
mod tree_tests;
#[cfg(test)]
mod write_tests;
