//! Tests of a desk with its store: commands and questions within small limits, searches, and lists of requests.
//!
//! Read `script_tests.rt` first: its scripts (`scripts.rt`) have commands with their answers. All databases are in
//! memory.
#![tactic(auto)]

#[cfg(test)]
mod asking;
#[cfg(test)]
mod broken_tests;
#[cfg(test)]
mod disk_tests;
#[cfg(test)]
mod files;
#[cfg(test)]
mod line_tests;
#[cfg(test)]
mod list_tests;
#[cfg(test)]
mod script_tests;
#[cfg(test)]
mod scripts;
#[cfg(test)]
mod server;
#[cfg(test)]
mod telling;
#[cfg(test)]
mod turn_tests;
