//! Jobs, states and texts, made of what stands in tables.
ghost use Rattle.std.specs.Prelude.{◌≡◌, length, IfOk};

use gob_job::{Job, read_job};
use gob_plan::{List, NoMemory, Text};
use gob_props::read_props;
use gob_state::{State, read_state};
use std::alloc::Global;
use std::test::Fail;

/// The job of a file's text.
pub(crate) fn job_of(alloc: Global, name: &str, text: &[u8]) -> Result<Job, Fail> {
    let Ok(props) = read_props(alloc, text) else {
        return Err(Fail::from("no properties"));
    };
    match read_job(alloc, name, &props) {
        Ok(job) => Ok(job),
        Err(_) => Err(Fail::from("no job")),
    }
}

/// The state of a file's text.
pub(crate) fn state_of(alloc: Global, text: &[u8]) -> Result<State, Fail> {
    match read_state(alloc, text)? {
        Some(state) => Ok(state),
        None => Err(Fail::from("no state")),
    }
}

pub(crate) fn texts_of(alloc: Global, texts: &[&str]) -> Result<List<Text>, NoMemory> {
    let mut list = List::new(alloc);
    for i in 0..texts.len() {
        let text = Text::from_str(alloc, texts[i])?;
        list.push(text)?;
    }
    Ok(list)
}
