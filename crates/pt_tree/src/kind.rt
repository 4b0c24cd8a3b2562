/// What stands at a name: a file, a directory, or anything else (a link, a device, a socket).
#[derive(Clone, Copy, Debug, PartialEq, Eq)]
pub enum Kind {
    /// A regular file.
    File,
    /// A directory.
    Dir,
    /// Anything else, as a link.
    Other,
}
