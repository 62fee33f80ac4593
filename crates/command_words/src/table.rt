//! A table of the words that a command takes, as data.

/// What a command takes behind its name. No option, flag or `files` may have another's name.
#[derive(Clone, Copy)]
pub struct WordTable<'a> {
    /// Options with one value, by their names without `--`.
    pub options: &'a [&'a str],
    /// Flags, which take no value, by their names without `--`.
    pub flags: &'a [&'a str],
    /// Whether names of files are taken.
    pub files: bool,
}
