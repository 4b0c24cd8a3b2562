//! The exit statuses of the program, each with when it is given.

/// All was carried, or is the same: the log has no other line, or none but those that the options
/// say are well. Or the names, the help or the version were written.
pub const DONE: u8 = 0;

/// A run or an audit came to its end, and its log has lines to read: of what was passed over, of an
/// object whose place was taken, of one that is absent or differs; or no object was met of an
/// identifier of its list. Or a check told of something, and of nothing that would stop a run.
pub const INCOMPLETE: u8 = 1;

/// The words were refused, or the folders lie in one another, or it isn't known where they lie, or
/// the destination is a storage root itself, or the file of an event may not lie where it is named,
/// or stands. Nothing was done.
pub const REFUSED: u8 = 2;

/// A fault ended the command, or another run or an audit has the destination, or the file of an
/// event can't be written: standard error says which. Or a check told of what would stop a run.
pub const FAILED: u8 = 3;
