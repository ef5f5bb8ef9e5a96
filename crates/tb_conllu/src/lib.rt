//! Reads and writes CoNLL-U text exactly.
//!
//! Bytes become sentences where they are the text of those sentences. Otherwise the answer is the first line after
//! which no continuation is valid. Read `specs/Text.antt` first, which says what the text of a sentence is. Then read
//! `Sentences` in `sentences.rt` and `put_block` in `writer.rt`.
#![tactic(auto)]

mod counts;
mod fault;
mod faulty;
mod fields;
mod growing;
mod id;
mod ids;
mod known;
mod laws;
mod linetext;
mod numbers;
mod owned;
mod pieces;
mod quick;
mod round;
mod rowline;
mod rows;
mod scanner;
mod sentences;
mod sink;
mod source;
mod spaces;
mod text;
mod whole;
mod writer;

pub use counts::{is_word_row, words};
pub use fault::{ReadFault, WriteFault};
pub use faulty::{FaultyLine, faulty_lines, push_within};
pub use id::LineId;
pub use ids::{head_of, id_of};
pub use known::known_block;
pub use laws::{
    a_file_begins_one_way, a_file_is_read_in_order, a_line_has_its_least_code,
    fault_after_sentences, faulty_line_is_dead, faulty_lines_are_reported, one_fault_is_reported,
    one_list_has_a_text, read_lines_are_alive, reported_bytes_are_no_file,
};
pub use owned::{own_block, own_row};
pub use round::{reread, rewrite};
pub use rowline::row_of;
pub use rows::{Block, BlockOf, BlockRef, Row, RowOf, RowRef};
pub use sentences::{Sentences, SourcedSentence};
pub use sink::Sink;
pub use source::{SliceSource, Source, SourceFault};
pub use text::Text;
pub use whole::{read, read_ref};
pub use writer::{put_block, put_blocks, put_number, write, write_block_to, write_to};
