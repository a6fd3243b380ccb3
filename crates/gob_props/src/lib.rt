//! The text of a job file: keys and values, one to a line, in the form of Java's properties files.
#![tactic(auto)]

mod entry;
mod fault;
mod laws;
mod lines;
mod props;
mod read;

pub use fault::PropsFault;
pub use laws::{entries_read_back, keys_keep_their_places, natural_lines_are_the_text};
pub use props::Props;
pub use read::read_props;
