//! The machine of a unit, which is fed the unit's bytes in pieces, and sends what their lines make to buffers.
#![tactic(auto)]

mod buffers;
mod laws;
mod machine;
mod names;
mod pipeline;
mod routes;
mod tally;

pub use buffers::{Target, TargetBuffers, target_at};
pub use laws::{any_cut_makes_the_same, filled_buffers_are_sent, steps_feed_a_machine};
pub use machine::Machine;
pub use names::name_of;
pub use pipeline::{Pipeline, Workspace};
