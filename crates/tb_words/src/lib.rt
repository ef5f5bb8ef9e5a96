//! Explains a refusal in words: where the fault is, what is there, and what to do. The words are made from the refused
//! value and from the input that it is about; they change no answer.
//!
//! Read `words.rt` first, and then `refusals.rt`. `findings.rt` has what is wrong at a place of a file. All sentences are
//! in `sentences.rt`.
#![tactic(auto)]

mod circles;
mod codes;
mod columns;
mod faults;
mod features;
mod findings;
mod literals;
mod pairs;
mod patterns;
mod pictures;
mod places;
mod queries;
mod refusals;
mod rules;
mod sentences;
mod spelling;
mod syntax;
mod telling;
mod words;

pub use faults::{FaultList, list_faults};
pub use literals::{forms_asked, with_signs_as_they_stand};
pub use queries::{words_of_hits, words_of_range, words_of_unreleased};
pub use refusals::{Asked, words_of_reply};
pub use sentences::MEMORY;
pub use words::Words;
