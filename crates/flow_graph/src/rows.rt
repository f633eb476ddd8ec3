//! Words and instructions, by the file.
ghost use Rattle.std.specs.Prelude.{◌≡◌, option_map};
ghost use Rattle.bilv_spec.specs.Points as points;
ghost use Rattle.bilv_spec.specs.Run as run;
ghost use Rattle.program_value.specs.Programs.{program_of};

use file_words::{fetchable, file_word};
use machine_law::{Machine, length, taken};
use program_value::Program;

/// What is decoded of the bytes that the file has at an address.
pub(crate) fn word<M: Machine>(p: &Program<M>, at: u32) -> u32
    ensures { result ≡ points.file_word (program_of p.now) at }
{
    taken::<M>(file_word(p.image, at))
}

/// Whether a word that the file has at an address may be fetched there: its bytes are loaded and executable, as many as its row has.
pub(crate) fn is_fetchable<M: Machine>(p: &Program<M>, word: u32, at: u32) -> bool
    ensures { result ≡ run.fetchable (program_of p.now) word at }
{
    fetchable(p.image, at, length::<M>(word))
}

/// The instruction at an address, where a word may be fetched there and the table has a row for it.
pub(crate) fn row<M: Machine>(p: &Program<M>, at: u32) -> Option<M::Insn>
    ensures { option_map M.Machine.row result ≡ points.file_row (program_of p.now) at }
{
    let word = word::<M>(p, at);
    if !is_fetchable::<M>(p, word, at) {
        return None;
    }
    M::decode(word)
}
