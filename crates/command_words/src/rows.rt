//! What a row of the table has: of an option, and of a command.
use crate::table::CommandKind;

/// What stands behind an option's name. `T` is a text: a constant whose type has a reference for a field can't be named
/// in specs/.
#[derive(Clone, Copy)]
pub enum Takes<T> {
    /// A number from `least` to `most`, and the text of the one that stands where the option isn't given; without such
    /// a default the option has no value then.
    Number {
        least: u32,
        most: u32,
        default: Option<T>,
    },
    /// Nothing: the option is a flag, given or not.
    Nothing,
}

/// An option: its name behind two hyphens, what it takes, and what help says of it.
#[derive(Clone, Copy)]
pub struct OptionRow<T> {
    pub name: T,
    pub takes: Takes<T>,
    pub help: T,
}

/// A command: its name, what help says of it in a line and on its own page, and its options `O` in the page's order.
#[derive(Clone, Copy)]
pub struct CommandRow<T, O> {
    pub kind: CommandKind,
    pub name: T,
    pub about: T,
    pub more: T,
    pub options: O,
}

/// An option of the table.
pub type AnOption = OptionRow<&'static str>;

/// A command of the table.
pub type ACommand = CommandRow<&'static str, &'static [AnOption]>;
