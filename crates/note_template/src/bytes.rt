//! Kinds of bytes, and where texts are parted.
ghost use Rattle.std.specs.Prelude.{◌≡◌, ◌≤◌, ◌<◌, ◌+◌, ◌∷◌, [], false, drop, length, IfSome, IfNone, not, ◌==◌};
ghost use Rattle.std.specs.List.{prefix_len};
ghost use Rattle.std.specs.Str.{bytes_eq};
ghost use Rattle.word_spec.specs.Texts.{is_blank};
ghost use Rattle.word_spec.specs.Tokens.{goes_on_name, is_digit, name_at, stops};
ghost use Rattle.note_template.specs.Templates.{begins, begins_number};
ghost use Rattle.note_template.specs.TemplateLines.{head, is_inside, parts, tail};

/// Whether it is a decimal digit.
fn is_digit(b: u8) -> bool
    ensures { result ≡ is_digit b }
{
    48 <= b && b <= 57
}

/// Whether a name goes on with it.
pub(crate) fn goes_on_name(b: u8) -> bool
    ensures { result ≡ goes_on_name b }
{
    is_digit(b)
        || (65 <= b && b <= 90)
        || (97 <= b && b <= 122)
        || b == b'_'
        || b == b'.'
        || b == b'$'
}

/// Whether no name goes on in a text.
pub(crate) fn stops(text: &[u8]) -> bool
    ensures { result ≡ stops text.now }
{
    match text.first() {
        None => true,
        Some(b) => !goes_on_name(*b),
    }
}

/// Whether a text begins with a digit.
pub(crate) fn begins_number(text: &[u8]) -> bool
    ensures { result ≡ begins_number text.now }
{
    match text.first() {
        None => false,
        Some(b) => is_digit(*b),
    }
}

/// What stands behind a byte with which a text begins.
pub(crate) fn behind_byte<'a>(byte: u8, text: &'a [u8]) -> Option<&'a [u8]>
    ensures some { IfSome result (λ rest. text.now ≡ byte ∷ rest.now) }
    ensures none { IfNone result (begins byte text.now ≡ false) }
{
    match text.split_first() {
        None => None,
        Some((first, rest)) => {
            if *first == byte {
                return Some(rest);
            }
            None
        }
    }
}

/// How many bytes at the front of a text go on a name.
fn name_length(text: &[u8]) -> usize
    ensures prefix { result ≡ prefix_len goes_on_name text.now }
    ensures count { result ≡ length (name_at text.now) }
    ensures within { result ≤ length text.now }
{
    text.iter().take_while(|b| goes_on_name(**b)).count()
}

/// The name at the front of a text, and what stands behind it.
pub(crate) fn split_name<'a>(text: &'a [u8]) -> (&'a [u8], &'a [u8])
    ensures name { result.0.now ≡ name_at text.now }
    ensures rest { result.1.now ≡ drop (length (name_at text.now)) text.now }
    ensures whole { length result.0.now + length result.1.now ≡ length text.now }
{
    let count = name_length(text);
    (&text[..count], &text[count..])
}

/// Whether two texts are the same.
pub(crate) fn is_text(text: &[u8], other: &[u8]) -> bool
    ensures { result ≡ bytes_eq text.now other.now }
{
    text == other
}

/// How many blanks and tabs stand at the front of a text.
pub(crate) fn blanks(text: &[u8]) -> usize
    ensures count { result ≡ prefix_len is_blank text.now }
    ensures within { result ≤ length text.now }
{
    text.iter()
        .take_while(|b| **b == b' ' || **b == b'\t')
        .count()
}

/// How many bytes of a line stand before its comment and before a carriage return.
fn head_length(line: &[u8]) -> usize
    ensures prefix { result ≡ prefix_len is_inside line.now }
    ensures count { result ≡ length (head line.now) }
    ensures within { result ≤ length line.now }
{
    line.iter()
        .take_while(|b| !(**b == b'#' || **b == b'\r'))
        .count()
}

/// A line up to its comment or to a carriage return, and what stands from there on.
pub(crate) fn split_line<'a>(line: &'a [u8]) -> (&'a [u8], &'a [u8])
    ensures head { result.0.now ≡ head line.now }
    ensures tail { result.1.now ≡ tail line.now }
{
    let count = head_length(line);
    (&line[..count], &line[count..])
}

/// How many bytes of a text stand before a byte.
pub(crate) fn count_before(end: u8, text: &[u8]) -> usize
    ensures count { result ≡ prefix_len (λ b. not (b == end)) text.now }
    ensures within { result ≤ length text.now }
{
    text.iter().take_while(|b| **b != end).count()
}

/// The first part of a text that a byte parts, and what stands behind that byte, if it stands there.
pub(crate) fn first_part<'a>(end: u8, text: &'a [u8]) -> (&'a [u8], Option<&'a [u8]>)
    ensures last { IfNone result.1 (parts end text.now ≡ result.0.now ∷ []) }
    ensures more { IfSome result.1 (λ rest. parts end text.now ≡ result.0.now ∷ parts end rest.now) }
    ensures shorter { IfSome result.1 (λ rest. length rest.now < length text.now) }
{
    let count = count_before(end, text);
    if count == text.len() {
        return (&text[..count], None);
    }
    (&text[..count], Some(&text[count + 1..]))
}
