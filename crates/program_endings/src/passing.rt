//! What a program is given by value, and what it gives back.
use sheet_files::FilesFault;

/// What a program is given by value: the files of a worksheet, or why they weren't opened; the sources of all that comes, the
/// interpreters among them; and the output.
#[derive(Drop)]
pub struct Resources<D, S, W> {
    pub files: Result<D, FilesFault>,
    pub sources: S,
    pub output: W,
}

/// How a program ended, and what it gives back. Its files are closed.
#[derive(Drop)]
pub struct GivenBack<T, S, W> {
    pub ending: T,
    pub sources: S,
    pub output: W,
}

/// What a program answered, whether all of its last text went out, and what it gives back.
pub(crate) struct Completed<T, S, W> {
    pub(crate) answer: T,
    pub(crate) whole: bool,
    pub(crate) sources: S,
    pub(crate) output: W,
}
