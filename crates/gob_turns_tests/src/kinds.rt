//! What is done with the lines of a unit.

#[derive(Clone, Copy)]
pub enum Lines {
    /// They go on as they are.
    Plain,
    /// The same, but one of more than three bytes fails the unit.
    Short,
    /// The same, but of a unit with one line alone.
    Single,
    /// Numbers go on, and one line that isn't a number is passed over.
    Numbers,
}
