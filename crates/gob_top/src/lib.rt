//! The top call: the words of a command line in, a text and a status out.
#![tactic(auto)]

mod answer;
mod check;
mod command;
mod job;
mod recover;
mod report;
mod run;
mod stopped;
mod top;

pub use answer::Report;
pub use top::gobblin;
