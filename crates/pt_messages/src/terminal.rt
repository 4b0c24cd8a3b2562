//! How wide a line of the terminal is.

// How many columns a line has where nothing is known of the terminal.
const USUAL: usize = 80;

/// What is known of a program's two outputs, and of its environment.
pub trait Terminals {
    /// Whether standard output is a terminal.
    fn output_is_terminal(&self) -> bool;

    /// Whether standard error is a terminal.
    fn errors_are_terminal(&self) -> bool;

    /// Puts what a variable of the environment holds at the front of this room, and gives how many
    /// bytes that are; none where there is no such variable, or it has no room.
    fn variable(&self, name: &str, room: &mut [u8]) -> Option<usize>;
}

/// How many columns a line of the terminal has, where that is told: by `COLUMNS` in the
/// environment, and where `TERM` names no terminal that understands more than text, as the usual
/// 80. None where the terminal itself may be told to cut a longer line.
pub(crate) fn columns(rt: &impl Terminals) -> Option<usize> {
    let mut room = [0u8; 64];
    if let Some(columns) = read_variable(rt, "COLUMNS", &mut room)
        && let Ok(columns) = columns.parse()
        && columns > 0
    {
        return Some(columns);
    }
    match read_variable(rt, "TERM", &mut room) {
        None | Some("" | "dumb") => Some(USUAL),
        Some(_) => None,
    }
}

// What a variable of the environment holds, where that is a short text.
fn read_variable<'a>(rt: &impl Terminals, name: &str, room: &'a mut [u8]) -> Option<&'a str> {
    let length = rt.variable(name, room)?;
    str::from_utf8(room.get(..length)?).ok()
}
