//! What a job has committed as a state that is kept whole and the changes behind it.
#![tactic(auto)]

mod apply;
mod change;
mod delta;
mod faults;
mod loading;
mod names;
mod parts;
mod pipelines;
mod ranges;
mod since;

pub use apply::apply_delta;
pub use change::{Loaded, StateChange, state_change};
pub use delta::write_delta;
pub use faults::LoadFault;
pub use loading::load;
