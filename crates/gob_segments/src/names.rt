//! The names of the files that tell a job's state.
ghost use Rattle.std.specs.Prelude.{◌≡◌, ◌++◌, IfOk, OnOk};
ghost use Rattle.std.specs.Str.{IsUtf8};
ghost use Rattle.gob_bytes.specs.Paths.{delta_folder, delta_name, state_name};

use gob_plan::{NoMemory, Text};
use gob_text::push_offset;
use std::alloc::{AllocError, Global};

/// Where a state is kept whole.
pub fn state_file_name(alloc: Global, job: &str) -> Result<Text, NoMemory>
    ensures { IfOk result (λ name. name ≡ state_name job.now) }
{
    let mut name = Text::from_str(alloc, job)?;
    name.push("/state")?;
    Ok(name)
}

/// The folder of changes, with a slash at its end.
pub fn delta_folder_name(alloc: Global, job: &str) -> Result<Text, NoMemory>
    ensures { IfOk result (λ name. name ≡ delta_folder job.now) }
{
    let mut name = Text::from_str(alloc, job)?;
    name.push("/delta/")?;
    Ok(name)
}

/// Where the change is kept that led to this run's state.
pub fn delta_file_name(alloc: Global, job: &str, run: u64) -> Result<Text, NoMemory>
    ensures { IfOk result (λ name. name ≡ delta_name job.now run) }
{
    let mut name = Vec::new(alloc);
    push_delta_name(&mut name, job, run)?;
    Ok(ascii_text(name))
}

fn push_delta_name(into: &mut Vec<u8>, job: &str, run: u64) -> Result<(), AllocError>
    ensures { OnOk result (into.new.items ≡ into.old.items ++ delta_name job.now run) }
{
    into.extend_from_slice(job.as_bytes())?;
    into.extend_from_slice(b"/delta/")?;
    push_offset(into, run)?;
    Ok(())
}

// Job names and digits are ASCII.
fn ascii_text(bytes: Vec<u8>) -> Text
    requires { IsUtf8 bytes.items }
    ensures { result ≡ bytes.items }
{
    match String::from_utf8(bytes) {
        Ok(text) => Text::from_string(text),
        Err(_) => unreachable!(),
    }
}
