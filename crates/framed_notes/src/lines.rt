//! The lines of a text.
ghost use Rattle.std.specs.Prelude.{◌≡◌, ◌≢◌, ◌∷◌, ◌<◌, ◌≤◌, ℕ, length, get_or};
ghost use Rattle.notes_spec.specs.NotesGrammar.{lines_of};
ghost use Rattle.notes_lang.specs.Lines.{stripped};

/// A line without the CR before its LF.
#[tactic(auto, using(notes_lang::proofs::FirstLines::strips, notes_lang::proofs::FirstLines::keeps, notes_lang::proofs::FirstLines::keeps_empty))]
fn without_return(line: &[u8]) -> &[u8]
    ensures { result.now ≡ stripped line.now }
{
    let len = line.len();
    if len == 0 {
        return line;
    }
    if line[len - 1] == 13 {
        return &line[..len - 1];
    }
    line
}

/// Where the first LF is, or the length.
fn line_end(text: &[u8]) -> usize
    ensures within { result ≤ length text.now }
    ensures none_before { (k : ℕ) → k < result → get_or text.now k 0 ≢ 10 }
    ensures found { result < length text.now → get_or text.now result 0 ≡ 10 }
{
    let mut end = 0usize;
    while end < text.len() {
        if text[end] == 10 {
            return end;
        }
        end += 1;
    }
    end
}

/// The first line of a text that has one, and the text after it.
#[tactic(auto, using(notes_lang::proofs::FirstLines::last_line))]
pub(crate) fn first_line(text: &[u8]) -> (&[u8], &[u8])
    requires { 0 < length text.now }
    ensures lines { lines_of text.now ≡ result.0.now ∷ lines_of result.1.now }
    ensures shorter { length result.1.now < length text.now }
{
    let end = line_end(text);
    if end == text.len() {
        return (text, &text[end..]);
    }
    (without_return(&text[..end]), &text[end + 1..])
}
