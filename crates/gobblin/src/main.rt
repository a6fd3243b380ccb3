//! The program: it hands the folder `source`, the folder `work` and standard output to the top call.
#![tactic(auto)]

use gob_io::{DirSource, StdSink};
use gob_plan::{NoMemory, Text};
use gob_top::gobblin;
use gob_volume::DirVolume;
use std::alloc::Global;
use std::process::ExitCode;
use std::{env, io};

/// The status where no memory is left for the words.
const NO_MEMORY: u8 = 8;

fn main(rt: HostRuntime) -> ExitCode {
    let alloc = rt.alloc();
    let status = match folders(alloc) {
        Ok((source, work)) => {
            let mut source = DirSource::new(&rt, alloc, source);
            let mut volume = DirVolume::new(&rt, alloc, work);
            let mut out = StdSink::new(&rt);
            match words(&rt, alloc) {
                Ok(words) => gobblin(alloc, words.as_slice(), &mut source, &mut volume, &mut out),
                Err(NoMemory) => NO_MEMORY,
            }
        }
        Err(NoMemory) => NO_MEMORY,
    };
    ExitCode::from(status)
}

fn folders(alloc: Global) -> Result<(Text, Text), NoMemory> {
    Ok((
        Text::from_str(alloc, "source")?,
        Text::from_str(alloc, "work")?,
    ))
}

// The words after the program's name; none at all where one of them isn't UTF-8.
fn words(rt: &HostRuntime, alloc: Global) -> Result<Vec<String>, NoMemory> {
    let mut words = Vec::new(alloc);
    let args = match env::args(rt) {
        Ok(args) => args,
        Err(e) if e.kind() == io::ErrorKind::InvalidData => return Ok(words),
        Err(_) => return Err(NoMemory),
    };
    for word in args.skip(1) {
        if let Err(_) = words.push(word) {
            return Err(NoMemory);
        }
    }
    Ok(words)
}
