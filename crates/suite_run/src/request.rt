//! How a suite is run.

/// How a suite is run. The name of the file stands as it was written.
#[derive(Clone, Copy)]
pub struct Run<'a> {
    /// The file of the suite.
    pub suite: &'a str,
    /// The text that the names of the checks have that are run: every name where there is none.
    pub only: Option<&'a str>,
    /// Whether a vacuous answer, and one with a warning, count as not expected.
    pub strict: bool,
    /// Whether the names are printed, and nothing is run.
    pub list: bool,
    /// Whether each line is a JSON object, and there is no summary.
    pub json: bool,
}
