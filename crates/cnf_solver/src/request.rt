//! What the program is asked.

/// What a lawful line asks for. The name of the file stands as it was written.
#[derive(Clone, Copy)]
pub struct Request<'a> {
    pub file: &'a str,
    /// Learned clauses, 1 to 4294967295.
    pub conflicts: u64,
    /// Whether the certificate of a refutation is printed.
    pub certificate: bool,
}
