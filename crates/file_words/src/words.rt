//! The bytes from an address on.
ghost use Rattle.std.specs.Prelude.{◌≡◌, ◌∷◌, [], slice_index};
ghost use Rattle.std.specs.List.{list_all};
ghost use Rattle.word_spec.specs.Memory as memory;
ghost use Rattle.word_spec.specs.Words.{add};
ghost use Rattle.machine_spec.specs.Machine.{offsets};
ghost use Rattle.bilv_spec.specs.Elf.{loaded, is_kept, is_executable};
ghost use Rattle.bilv_spec.specs.Files.{order_of};
ghost use Rattle.bilv_spec.specs.Points.{byte_of_cell};

use elf32_reader::Image;

/// The byte that many addresses behind one is loaded and executable.
fn executable_behind(image: &Image, a: u32, i: u32) -> bool
    ensures { result ≡ is_executable (loaded image.now (add 32 a i)) }
{
    image.flags(a.wrapping_add(i)) % 2 == 1
}

/// The bytes of a row of 2 or 4 bytes from an address on are loaded and executable. For another number than 2 they are the four.
pub fn fetchable(image: &Image, a: u32, bytes: u8) -> bool
    ensures { result ≡ list_all (λ i. is_executable (loaded image.now (add 32 a i))) (offsets bytes) }
{
    if bytes == 2 {
        return executable_behind(image, a, 0) && executable_behind(image, a, 1);
    }
    executable_behind(image, a, 0)
        && executable_behind(image, a, 1)
        && executable_behind(image, a, 2)
        && executable_behind(image, a, 3)
}

/// The byte that many addresses behind one is kept.
fn kept_behind(image: &Image, a: u32, i: u32) -> bool
    ensures { result ≡ is_kept (loaded image.now (add 32 a i)) }
{
    image.kept(a.wrapping_add(i))
}

/// The four bytes from an address on are kept: they are loaded, and executable or not writable.
pub fn all_kept(image: &Image, a: u32) -> bool
    ensures { result ≡ list_all (λ i. is_kept (loaded image.now (add 32 a i))) (0 ∷ 1 ∷ 2 ∷ 3 ∷ []) }
{
    kept_behind(image, a, 0)
        && kept_behind(image, a, 1)
        && kept_behind(image, a, 2)
        && kept_behind(image, a, 3)
}

/// The byte that many addresses behind one, 0 where none is loaded.
fn byte_behind(image: &Image, a: u32, i: u32) -> u8
    ensures { result ≡ byte_of_cell (loaded image.now (add 32 a i)) }
{
    image.byte(a.wrapping_add(i)).unwrap_or(0)
}

/// The word of four bytes in a byte order: with `big`, the first is the highest.
pub fn word_of(bytes: [u8; 4], big: bool) -> u32
    ensures { result ≡ memory.number (memory.endian big) 4 (λ i. slice_index bytes i) }
{
    if big {
        u32::from_be_bytes(bytes)
    } else {
        u32::from_le_bytes(bytes)
    }
}

/// The number of the four bytes that a file has from an address on, in the byte order of its machine; a byte that is not loaded counts as 0.
pub fn file_word(image: &Image, a: u32) -> u32
    ensures { result ≡ memory.number (order_of image.now) 4 (λ i. byte_of_cell (loaded image.now (add 32 a i))) }
{
    let bytes = [
        byte_behind(image, a, 0),
        byte_behind(image, a, 1),
        byte_behind(image, a, 2),
        byte_behind(image, a, 3),
    ];
    word_of(bytes, image.is_big_machine())
}
