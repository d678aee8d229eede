//! How `check` prints what it finds.

/// How findings are printed.
#[derive(Clone, Copy, Debug, PartialEq, Eq)]
pub enum Format {
    /// A line of each as compilers print it, the line of the file with a mark, and a hint.
    Text,
    /// A line of JSON for each.
    Json,
    /// A workflow command of GitHub for each.
    Github,
    /// One log in SARIF 2.1.0.
    Sarif,
    /// A patch of what can be mended surely, in place of findings.
    Patch,
}

/// The words that `--format` takes.
pub const FORMATS: &[&str] = &["text", "json", "github", "sarif"];
