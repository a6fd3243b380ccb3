//! How a state is written.
ghost use Rattle.std.specs.Prelude.{◌≡◌, IfOk};
ghost use Rattle.gob_ledger.specs.Spelling.{Proper, state_spelling, version_2};

use crate::State;
use crate::push::{push_numbered, push_parts, push_pipelines, push_totals};
use gob_plan::{Bytes, NoMemory};

/// The text of a state, in the second version.
pub fn write_state(state: &State) -> Result<Bytes, NoMemory>
    requires { Proper state.now }
    ensures { IfOk result (λ b. b ≡ state_spelling version_2 state.now) }
{
    let mut text = Vec::new(state.pipelines.allocator());
    push_numbered(&mut text, b"gobblin-state", &[2])?;
    push_numbered(&mut text, b"run", &[state.run])?;
    push_pipelines(&mut text, state.pipelines.as_slice())?;
    push_totals(&mut text, &state.totals)?;
    push_parts(&mut text, &state.marks)?;
    text.extend_from_slice(b"end\n")?;
    Ok(Bytes::from_vec(text))
}
