//! Sorts, whichever they are (SMT-LIB 2.6, sections 3.3 and 3.5).
ghost use Rattle.std.specs.Prelude.{◌≡◌, ◌<◌, ◌≤◌, ◌+◌, ◌^◌, IfSome};
ghost use Rattle.model_text.specs.Sorts.{completed, behind_indices, sort_next, sort_depth};
ghost use Rattle.model_text.specs.Tokens.{token_of};

use crate::token::Token;

/// Where the reading of a sort stands. A sort is a name, a name with indices, or one of these over sorts, so that what is left of each open bracket is known
/// from the innermost one: `depth` counts the others.
#[derive(Clone, Copy)]
pub(crate) enum SortPlace {
    /// Before a sort.
    Wanted { depth: u64 },
    /// Behind the bracket of a sort.
    Opened { depth: u64 },
    /// Behind two brackets, the second of a name with indices that is over sorts.
    HeadOpened { depth: u64 },
    /// Before a name with indices.
    Name { head: bool, depth: u64 },
    /// Before its first index.
    FirstIndex { head: bool, depth: u64 },
    /// Before its other indices.
    Indices { head: bool, depth: u64 },
    /// Behind a sort that a name is over.
    More { outer: u64 },
    /// Behind the last token.
    Whole,
}

/// Behind a sort in so many brackets.
fn completed(depth: u64) -> SortPlace
    ensures place { result ≡ completed depth }
    ensures depth { sort_depth result ≤ depth }
{
    if depth == 0 {
        SortPlace::Whole
    } else {
        SortPlace::More { outer: depth - 1 }
    }
}

/// Behind the indices of a name, which may be over sorts.
fn behind_indices(head: bool, depth: u64) -> SortPlace
    requires { depth < 2 ^ 63 }
    ensures place { result ≡ behind_indices head depth }
    ensures depth { sort_depth result ≤ depth + 1 }
{
    if head {
        SortPlace::Wanted { depth: depth + 1 }
    } else {
        completed(depth)
    }
}

impl SortPlace {
    /// Where the reading stands behind one more token; nothing where the token can't stand there.
    pub(crate) fn next(self, token: Token<'_>) -> Option<SortPlace>
        requires { sort_depth self < 2 ^ 63 }
        ensures place { result ≡ sort_next self (token_of token.entry) }
        ensures depth { IfSome result (λ p. sort_depth p ≤ sort_depth self + 1) }
    {
        match self {
            SortPlace::Wanted { depth } => {
                if token.is_open() {
                    return Some(SortPlace::Opened { depth });
                }
                token.is_name().then_some(completed(depth))
            }
            SortPlace::Opened { depth } => {
                if token.is_open() {
                    return Some(SortPlace::HeadOpened { depth });
                }
                if token.is_word(b"_") {
                    let head = false;
                    return Some(SortPlace::Name { head, depth });
                }
                let depth = depth + 1;
                token.is_name().then_some(SortPlace::Wanted { depth })
            }
            SortPlace::HeadOpened { depth } => {
                let head = true;
                token
                    .is_word(b"_")
                    .then_some(SortPlace::Name { head, depth })
            }
            SortPlace::Name { head, depth } => token
                .is_name()
                .then_some(SortPlace::FirstIndex { head, depth }),
            SortPlace::FirstIndex { head, depth } => token
                .is_index()
                .then_some(SortPlace::Indices { head, depth }),
            SortPlace::Indices { head, depth } => {
                if token.is_close() {
                    return Some(behind_indices(head, depth));
                }
                token
                    .is_index()
                    .then_some(SortPlace::Indices { head, depth })
            }
            SortPlace::More { outer } => {
                if token.is_close() {
                    return Some(completed(outer));
                }
                if token.is_open() {
                    return Some(SortPlace::Opened { depth: outer + 1 });
                }
                token.is_name().then_some(SortPlace::More { outer })
            }
            SortPlace::Whole => None,
        }
    }
}
