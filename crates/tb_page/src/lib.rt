//! The page: the desk in a browser. It serves the page's files, the lists that they read, and the check of a text that is not
//! saved yet, beside the desk's own paths.
//!
//! Read `answer_with_page` in `answering.rt` first, and then `specs/Visits.antt`, which says what is the page's to answer,
//! and `specs/Guard.antt`, which says who may ask.
#![tactic(auto)]

mod answering;
mod files;
mod guard;
mod heads;
mod lists;
mod paths;
mod responses;
mod visits;

pub use answering::answer_with_page;
pub use guard::Foreign;
pub use heads::Kind;
pub use paths::{File, PageList, no_path_of_the_page_is_the_desks};
pub use visits::{Visit, awaits_text, one_visit_is_asked, read_visit};
