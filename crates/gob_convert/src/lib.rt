//! The law of converters: one takes a record of a shape and makes a list of records of another shape of it, or
//! finds it bad. Converters are put together here; those of a format or a step stand in crates above.
#![tactic(auto)]

mod chain;
mod convert;
mod many;
mod placer;

pub use chain::Chain;
pub use convert::{Convert, ConvertFault};
pub use many::Many;
pub use placer::Placer;
