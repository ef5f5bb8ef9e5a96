//! Tests one field of a row by itself: features, parts of speech and relations.
//!
//! Read `specs/Feats.antt`, `specs/Tags.antt` and `specs/Relations.antt` first, which say what each field may hold.
#![tactic(auto)]

mod blank;
mod deprel;
mod feats;
mod repeats;
mod rising;
mod tags;

pub use blank::is_blank_field;
pub use deprel::{is_relation_text, relation_base};
pub use feats::is_feature_list;
pub use tags::is_tag;
