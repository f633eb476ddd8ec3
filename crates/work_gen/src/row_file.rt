//! Row files: an executable for RISC-V with one readable and executable segment of words at 0x10000 (System V ABI, ELF header and program header).

ghost use Rattle.std.specs.Prelude.{◌≡◌, ◌≤◌, ◌++◌, IfOk, length};
ghost use Rattle.word_spec.specs.RowFiles.{rv_file};

use std::alloc::{AllocError, Global};

/// The file of words. The error is want of memory.
pub fn row_file(alloc: Global, words: &[u32]) -> Result<Vec<u8>, AllocError>
    requires { length words.now ≤ 65536 }
    ensures { IfOk result (λ file. file.items ≡ rv_file words.now) }
{
    let [a, b, c, d] = (4 * words.len() as u32).to_le_bytes();
    let headers: [u8; 84] = [
        0x7f, 0x45, 0x4c, 0x46, 1, 1, 1, 0, 0, 0, 0, 0, 0, 0, 0, 0, 2, 0, 0xf3, 0, 1, 0, 0, 0, 0,
        0, 1, 0, 52, 0, 0, 0, 0, 0, 0, 0, 0, 0, 0, 0, 52, 0, 32, 0, 1, 0, 0, 0, 0, 0, 0, 0, 1, 0,
        0, 0, 84, 0, 0, 0, 0, 0, 1, 0, 0, 0, 1, 0, a, b, c, d, a, b, c, d, 5, 0, 0, 0, 4, 0, 0, 0,
    ];
    let mut file = Vec::from_slice(alloc, &headers)?;
    for word in words {
        file.extend_from_slice(&word.to_le_bytes())?;
    }
    Ok(file)
}
