//! The tokens of the script language: bytes to tokens with their places.
#![tactic(auto)]

mod bytes;
mod content;
mod laws;
mod lexer;
mod numbers;
mod quotes;
mod signs;
mod tables;
mod words;

pub use content::{as_text, bytes_of, name_of, number_of, table_of, text_of};
pub use laws::{
    names_spelled, reserved_words_are_no_names, signs_are_longest, spans_ascend, texts_spelled,
    tokens_mean, tokens_stand,
};
pub use lexer::read_tokens_of;
