//! The files of the page, each as a constant in a module of its own.

mod conllu;
mod desk;
mod edit;
mod find;
mod index;
mod page;
mod rows;
mod style;
mod tree;

pub use conllu::CONLLU_JS;
pub use desk::DESK_JS;
pub use edit::EDIT_JS;
pub use find::FIND_JS;
pub use index::INDEX_HTML;
pub use page::PAGE_JS;
pub use rows::ROWS_JS;
pub use style::PAGE_CSS;
pub use tree::TREE_JS;
