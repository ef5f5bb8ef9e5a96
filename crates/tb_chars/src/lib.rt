//! Classifies the characters of a field: white space and digits.
//!
//! Read `specs/Spaces.antt` and `specs/Digits.antt` first. They define the two classes, and every contract here cites
//! one of them.
#![tactic(auto)]

mod digits;
mod spaces;

pub use digits::{are_digits, is_digit_byte};
pub use spaces::{has_white_space, is_solid_text, may_begin_white};
