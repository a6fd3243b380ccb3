//! How what is kept of a job is loaded.

ghost use Rattle.std.specs.Prelude.{◌≡◌, ◌≤◌, ◌+◌, ℕ, List, length, IfErr, IfOk, IfSome, MatchOption, None};
ghost use Rattle.gob_bytes.specs.Paths.{state_name};
ghost use Rattle.gob_device.specs.Disk.{contents_at};
ghost use Rattle.gob_device.specs.Names.{IsPathname};
ghost use Rattle.gob_ledger.specs.Delta.{LeadOn, StateDamaged};
ghost use Rattle.gob_ledger.specs.Spelling as spelling;
ghost use Rattle.gob_segments.specs.Loading.{BlamesDamage, BlamesNext, BlamesSome, IsBase, IsKept, IsNext, LedTo};
ghost use Rattle.gob_segments.specs.Loading.{LoadDamageDue, LoadedFits, TellsNext, RoseIfLoadFailed};
ghost use Rattle.gob_state.specs.Versions.{version_of};

use crate::names::{delta_file_name, delta_folder_name, state_file_name};
use crate::{LoadFault, Loaded, apply_delta};
use gob_plan::{NoMemory, Text};
use gob_state::{State, Version, read_versioned};
use gob_volume::Volume;
use std::alloc::Global;

/// What is kept of the job: its state, from the state that is kept whole and the changes behind it. Each change is put
/// over the state in place, so that it takes the time of what has changed.
pub fn load<V: Volume>(alloc: Global, volume: &mut V, job: &str) -> Result<Loaded, LoadFault>
    requires named { IsPathname job.now }
    ensures kept { IfOk result (λ l. IfSome (V.disk volume.old) (λ d. IsKept job.now d.files l)) }
    ensures fits { IfOk result LoadedFits }
    ensures damaged { IfErr result (BlamesDamage job.now (V.disk volume.old)) }
    ensures due { IfSome (V.disk volume.old) (λ d. (name : List ℕ) → StateDamaged job.now d.files name
        → LoadDamageDue name result) }
    ensures disk { V.disk volume.new ≡ V.disk volume.old }
    ensures err { IfErr result (RoseIfLoadFailed (V.faults volume.old) (V.faults volume.new)) }
    ensures goes_on { V.faults volume.old ≤ V.faults volume.new }
{
    let loaded = load_kept(alloc, volume, job)?;
    Ok(loaded)
}

// The same: that damage is told where there is some follows of what is kept.
fn load_kept<V: Volume>(alloc: Global, volume: &mut V, job: &str) -> Result<Loaded, LoadFault>
    requires named { IsPathname job.now }
    ensures kept { IfOk result (λ l. IfSome (V.disk volume.old) (λ d. IsKept job.now d.files l)) }
    ensures fits { IfOk result LoadedFits }
    ensures damaged { IfErr result (BlamesDamage job.now (V.disk volume.old)) }
    ensures disk { V.disk volume.new ≡ V.disk volume.old }
    ensures err { IfErr result (RoseIfLoadFailed (V.faults volume.old) (V.faults volume.new)) }
    ensures goes_on { V.faults volume.old ≤ V.faults volume.new }
{
    let Some((version, base)) = read_base(alloc, volume, job)? else {
        let loaded = load_nothing(alloc, volume, job)?;
        return Ok(loaded);
    };
    let loaded = load_changes(alloc, volume, job, version, base)?;
    Ok(loaded)
}

// The state that is kept whole, and its version.
fn read_base<V: Volume>(
    alloc: Global,
    volume: &mut V,
    job: &str,
) -> Result<Option<(Version, State)>, LoadFault>
    requires named { IsPathname job.now }
    ensures found { IfOk result (λ found. IfSome (V.disk volume.old) (λ d. MatchOption found
        (contents_at d.files (state_name job.now) ≡ None)
        (λ p. IsBase job.now d.files (version_of p.0) p.1))) }
    ensures proper { IfOk result (λ found. IfSome found (λ p. spelling.Proper p.1)) }
    ensures damaged { IfErr result (BlamesDamage job.now (V.disk volume.old)) }
    ensures disk { V.disk volume.new ≡ V.disk volume.old }
    ensures err { IfErr result (RoseIfLoadFailed (V.faults volume.old) (V.faults volume.new)) }
    ensures goes_on { V.faults volume.old ≤ V.faults volume.new }
{
    let name = state_file_name(alloc, job)?;
    let Some(bytes) = volume.read(alloc, name.as_str())? else {
        return Ok(None);
    };
    let Some(base) = read_versioned(alloc, bytes.as_slice())? else {
        return Err(LoadFault::Damaged { name });
    };
    Ok(Some(base))
}

// Where no state is kept whole there may be no change.
fn load_nothing<V: Volume>(alloc: Global, volume: &mut V, job: &str) -> Result<Loaded, LoadFault>
    requires gone { IfSome (V.disk volume.old) (λ d. contents_at d.files (state_name job.now) ≡ None) }
    ensures kept { IfOk result (λ l. IfSome (V.disk volume.old) (λ d. IsKept job.now d.files l)) }
    ensures fits { IfOk result LoadedFits }
    ensures damaged { IfErr result (BlamesDamage job.now (V.disk volume.old)) }
    ensures disk { V.disk volume.new ≡ V.disk volume.old }
    ensures err { IfErr result (RoseIfLoadFailed (V.faults volume.old) (V.faults volume.new)) }
    ensures goes_on { V.faults volume.old ≤ V.faults volume.new }
{
    let folder = delta_folder_name(alloc, job)?;
    let names = volume.names(alloc, folder.as_str())?;
    if let Some(name) = names.as_slice().first() {
        let name = name.copy()?;
        return Err(LoadFault::Damaged { name });
    }
    Ok(Loaded {
        state: None,
        deltas: 0,
        version: 2,
    })
}

// The state to which the changes behind a state lead.
fn load_changes<V: Volume>(
    alloc: Global,
    volume: &mut V,
    job: &str,
    version: Version,
    base: State,
) -> Result<Loaded, LoadFault>
    requires named { IsPathname job.now }
    requires base { IfSome (V.disk volume.old) (λ d. IsBase job.now d.files (version_of version) base) }
    requires proper { spelling.Proper base }
    ensures kept { IfOk result (λ l. IfSome (V.disk volume.old) (λ d. IsKept job.now d.files l)) }
    ensures fits { IfOk result LoadedFits }
    ensures damaged { IfErr result (BlamesDamage job.now (V.disk volume.old)) }
    ensures disk { V.disk volume.new ≡ V.disk volume.old }
    ensures err { IfErr result (RoseIfLoadFailed (V.faults volume.old) (V.faults volume.new)) }
    ensures goes_on { V.faults volume.old ≤ V.faults volume.new }
{
    let folder = delta_folder_name(alloc, job)?;
    let names = volume.names(alloc, folder.as_str())?;
    let state = follow_changes(alloc, volume, job, version, base, names.as_slice())?;
    Ok(Loaded {
        state: Some(state),
        deltas: names.len() as u64,
        version: version_number(version),
    })
}

fn version_number(version: Version) -> u8
    ensures { result ≡ spelling.version_number (version_of version) }
{
    match version {
        Version::First => 1,
        Version::Second => 2,
    }
}

// Goes on by the changes of these names, one after the other.
fn follow_changes<V: Volume>(
    alloc: Global,
    volume: &mut V,
    job: &str,
    version: Version,
    base: State,
    names: &[Text],
) -> Result<State, LoadFault>
    requires named { IsPathname job.now }
    requires proper { spelling.Proper base }
    ensures leads { IfOk result (λ t. IfSome (V.disk volume.old)
        (λ d. LeadOn job.now d.files (version_of version) base names.now t)) }
    ensures led { IfOk result (LedTo base (length names.now)) }
    ensures damaged { IfErr result
        (BlamesSome job.now (version_of version) base names.now (V.disk volume.old)) }
    ensures disk { V.disk volume.new ≡ V.disk volume.old }
    ensures err { IfErr result (RoseIfLoadFailed (V.faults volume.old) (V.faults volume.new)) }
    ensures goes_on { V.faults volume.old ≤ V.faults volume.new }
{
    let mut state = base;
    for name in names {
        state = next_state(alloc, volume, job, version, state, name.as_str())?;
    }
    Ok(state)
}

// Goes on by the change of this name.
fn next_state<V: Volume>(
    alloc: Global,
    volume: &mut V,
    job: &str,
    version: Version,
    state: State,
    name: &str,
) -> Result<State, LoadFault>
    requires named { IsPathname job.now }
    requires proper { spelling.Proper state }
    ensures next { IfOk result (λ t. IfSome (V.disk volume.old)
        (λ d. IsNext job.now d.files (version_of version) state name.now t)) }
    ensures led { IfOk result (LedTo state 1) }
    ensures damaged { IfErr result
        (BlamesNext job.now (version_of version) state name.now (V.disk volume.old)) }
    ensures disk { V.disk volume.new ≡ V.disk volume.old }
    ensures err { IfErr result (RoseIfLoadFailed (V.faults volume.old) (V.faults volume.new)) }
    ensures goes_on { V.faults volume.old ≤ V.faults volume.new }
{
    if !is_next(alloc, job, state.run, name)? {
        let name = Text::from_str(alloc, name)?;
        return Err(LoadFault::Damaged { name });
    }
    let Some(bytes) = volume.read(alloc, name)? else {
        let name = Text::from_str(alloc, name)?;
        return Err(LoadFault::Damaged { name });
    };
    let Some(after) = apply_delta(alloc, version, state, bytes.as_slice())? else {
        let name = Text::from_str(alloc, name)?;
        return Err(LoadFault::Damaged { name });
    };
    Ok(after)
}

// Whether this is the name of the change that leads on from this run.
fn is_next(alloc: Global, job: &str, run: u64, name: &str) -> Result<bool, NoMemory>
    ensures { IfOk result (TellsNext job.now run name.now) }
{
    if run == u64::MAX {
        return Ok(false);
    }
    let next = delta_file_name(alloc, job, run + 1)?;
    Ok(next.as_str() == name)
}
