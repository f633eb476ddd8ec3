//! A form that stands for a number.
ghost use Rattle.std.specs.Prelude.{◌≤◌, ◌^◌};

/// What stands behind an `@`.
#[derive(Clone, Copy)]
pub(crate) struct Form<'a> {
    /// The symbol's name.
    pub(crate) name: &'a [u8],
    /// The symbol's size is meant, and not its value.
    pub(crate) is_size: bool,
    /// What is added to the value, modulo 2^32.
    pub(crate) added: u64,
    /// How many bytes the form has.
    pub(crate) count: usize,
    ghost small: { added ≤ 2 ^ 32 },
}
