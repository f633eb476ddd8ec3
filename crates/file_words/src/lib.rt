//! What a file gives at an address: whether a row may be fetched there, whether four bytes are kept, and their number. Addresses wrap.
#![tactic(auto)]

mod words;

pub use words::{all_kept, fetchable, file_word, word_of};
