//! Names of symbols beside a name that is sought. A symbol's name is read only as far as the other goes, since many may share a long text.
ghost use Rattle.std.specs.Prelude.{◌≡◌, ◌≤◌, length, slice_index};
ghost use Rattle.std.specs.List.{prefix_len};
ghost use Rattle.std.specs.Str.{bytes_eq};
ghost use Rattle.symbol_table.specs.Symbols.{is_letter, name_of, shared};

/// How many bytes the name in front of a text has.
fn name_length(text: &[u8]) -> usize
    ensures count { result ≡ length (name_of text.now) }
    ensures prefix { result ≡ prefix_len is_letter text.now }
    ensures within { result ≤ length text.now }
{
    text.iter().take_while(|b| **b != 0).count()
}

/// The name in front of a text.
pub(crate) fn name_of<'a>(text: &'a [u8]) -> &'a [u8]
    ensures { result.now ≡ name_of text.now }
{
    let count = name_length(text);
    &text[..count]
}

/// The byte at a place, 0 behind the end.
pub(crate) fn byte_at(text: &[u8], i: usize) -> u8
    ensures { result ≡ slice_index text.now i }
{
    match text.get(i) {
        None => 0,
        Some(byte) => *byte,
    }
}

/// Whether the name in front of a text is the name.
pub(crate) fn is_named(text: &[u8], name: &[u8]) -> bool
    ensures { result ≡ bytes_eq (name_of text.now) name.now }
{
    for (i, byte) in name.iter().enumerate() {
        let own = byte_at(text, i);
        if own == 0 {
            return false;
        }
        if own != *byte {
            return false;
        }
    }
    byte_at(text, name.len()) == 0
}

/// How many bytes a name and the name in front of a text share from the front on.
pub(crate) fn shared(name: &[u8], text: &[u8]) -> usize
    ensures { result ≡ shared name.now (name_of text.now) }
{
    for (i, byte) in name.iter().enumerate() {
        let own = byte_at(text, i);
        if own == 0 {
            return i;
        }
        if own != *byte {
            return i;
        }
    }
    name.len()
}
