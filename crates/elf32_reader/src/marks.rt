//! Where names end: the last NUL before a place of the file, found without going through the file again for each table of names.
ghost use Rattle.std.specs.Prelude.{ℕ, ◌≡◌, ◌≢◌, ◌≤◌, ◌<◌, ◌+◌, ◌-◌, ◌*◌, IfOk, length, slice_index};
ghost use Rattle.elf32_reader.specs.Marks.{IsMark, AreMarks};

use std::alloc::{AllocError, Global};

/// How many bytes lie between two marks.
const BLOCK: usize = 4096;

/// The place behind the last NUL of a block and of all bytes before it, of which that is given.
fn mark_behind(file: &[u8], start: usize, mark: usize) -> usize
    requires room { start + 4096 ≤ length file.now }
    requires mark { IsMark file.now start mark }
    ensures { IsMark file.now (start + 4096) result }
{
    let mut mark = mark;
    for at in start..start + BLOCK {
        if file[at] == 0 {
            mark = at + 1;
        }
    }
    mark
}

/// For each place that is a multiple of 4096, the place behind the last NUL before it, or 0 where there is none. One pass over the file.
pub(crate) fn nul_marks(alloc: Global, file: &[u8]) -> Result<Vec<usize>, AllocError>
    ensures { IfOk result (λ v. AreMarks file.now v.items) }
{
    let mut marks = Vec::new(alloc);
    marks.push(0)?;
    for block in 0..file.len() / BLOCK {
        let mark = mark_behind(file, block * BLOCK, marks[block]);
        marks.push(mark)?;
    }
    Ok(marks)
}

/// The offsets in a table of names below which each name ends inside the table. It looks at no more than 4096 bytes.
pub(crate) fn names_end(file: &[u8], marks: &[usize], offset: usize, size: usize) -> usize
    requires marks { AreMarks file.now marks.now }
    requires room { offset + size ≤ length file.now }
    ensures within { result ≤ size }
    ensures ended { 0 < result → slice_index file.now (offset + (result - 1)) ≡ 0 }
    ensures behind { (j : ℕ) → result ≤ j → j < size → slice_index file.now (offset + j) ≢ 0 }
{
    let mut end = size;
    while end > 0 {
        let at = offset + end;
        if at % BLOCK == 0 {
            return marks[at / BLOCK].saturating_sub(offset);
        }
        if file[at - 1] == 0 {
            return end;
        }
        end -= 1;
    }
    0
}
