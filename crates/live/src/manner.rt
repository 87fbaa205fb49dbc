//! How the lines of an input are taken.

/// How the lines of an input are taken.
#[derive(Clone, Copy, Debug, PartialEq, Eq)]
pub struct Manner {
    /// While no wait holds lines back the next one is taken at once, and children are listened to in waits
    /// alone. Else what comes first is taken first.
    pub lines_first: bool,
    /// How many seconds a line may take in a `wait` that names none, from when something closed last or the wait
    /// began. Then each interpreter that is at something is interrupted, and has two seconds more.
    pub limit: Option<u32>,
    /// Whether the input stops after the first line that goes wrong.
    pub strict: bool,
}
