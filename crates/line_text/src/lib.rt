//! The parts of lines of text: words and numbers to read, pieces and escapes to write.
//! Used by all that reads commands or writes replies, records or entries.
#![tactic(auto)]

mod as_pieces;
mod limits;
mod numbers;
mod octets;
mod piece;
mod pieces;
mod rule_words;
mod words;

pub use as_pieces::{AsPieces, push_each};
pub use limits::MAX_LONG_LINE;
pub use numbers::{is_numeral, number_of};
pub use piece::Piece;
pub use pieces::Pieces;
pub use rule_words::{gap_before, rule_word};
pub use words::Words;
