//! A folder for one test.

use std::alloc::Global;
use std::{env, fs, io, process};

/// A new folder for a test of this name; what an earlier run left there is taken away.
pub fn room(rt: &HostRuntime, test: &str) -> io::Result<String> {
    let id = process::id(rt.process());
    let place = env::temp_dir(rt)?;
    let path = format!(in rt.alloc(); "{}/gob_folders-{id}-{test}", place.as_str())?;
    let _ = fs::remove_dir_all(rt, path.as_str());
    fs::create_dir(rt, path.as_str())?;
    Ok(path)
}

/// A path below a folder.
pub fn at(alloc: Global, folder: &str, name: &str) -> io::Result<String> {
    let mut path = String::from_str(alloc, folder)?;
    path.push('/')?;
    path.push_str(name)?;
    Ok(path)
}
