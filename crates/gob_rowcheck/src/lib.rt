//! What the policies of a branch say of a row.
#![tactic(auto)]

mod judged;
mod lookup;
mod placed;
mod verdict;

pub use judged::judge_row_at;
pub use lookup::{policy_places, test_places};
pub use placed::{holds_at, place_of};
pub use verdict::{RowEnd, RowVerdict, judge_row};
