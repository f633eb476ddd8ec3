//! Why a template is refused.

/// Why a line is refused.
#[derive(Debug, Drop)]
pub enum Refusal {
    /// No symbol has the name. The name of the first symbol that shares most bytes with it from the front on, where one shares any; bytes that are no UTF-8
    /// stand as U+FFFD.
    UnknownSymbol { nearest: Option<String> },
    /// Symbols of the name have different values or sizes.
    AmbiguousSymbol,
    /// An `@` that begins no form, or a line `abi`, `stack`, `global` or `only` that is not in form.
    WrongForm,
    /// The line of notes has more than 1,024 bytes.
    LongLine,
}

/// Why a template is refused, for its first refusal.
#[derive(Debug, Drop)]
pub enum TemplateFault {
    /// Lines and columns count from 1; columns count bytes.
    Refused {
        line: usize,
        column: usize,
        refusal: Refusal,
    },
    /// Memory ran out.
    Memory,
}
