//! One attempt at a unit, and the files that it stages.
ghost use Rattle.std.specs.Prelude.{◌≡◌, true, false, map, option_map, IfOk, IfSome, OnErr, OnOk};
ghost use Rattle.gob_bytes.specs.Paths.{attempt_folder};
ghost use Rattle.gob_bytes.specs.Tables.{IsInByteOrder};
ghost use Rattle.gob_device.specs.Causes.{HasCause};
ghost use Rattle.gob_device.specs.Disk.{Along, Both, OnlyAt};
ghost use Rattle.gob_device.specs.Names.{IsPathname, is_pathname};
ghost use Rattle.std.specs.List.{list_all};
ghost use Rattle.gob_recovery.specs.Commits.{OnlyBelow};
ghost use Rattle.gob_stage.specs.Attempt.{AreThere, after_begin, is_begun, new_attempt, staged_entry, staged_files};
ghost use Rattle.gob_stage.specs.Attempt.{staged_name};
ghost use Rattle.gob_stage.specs.Stages.{EachThere, HoldsAll, HoldsMore, OnlyAmong, after_sync_calls, after_making};
ghost use Rattle.gob_stage.specs.Stages.{after_staging, after_syncs};

use crate::StageFault;
use gob_memory::{get, set};
use gob_plan::{List, NoMemory, StagedFile, Text};
use gob_volume::Volume;
use itoa::Buffer;
use std::alloc::Global;
use std::marker::Model;

/// The files that one attempt at a unit has begun, each in the attempt's folder under its target's name. A target is
/// the name of a published file without the job's folder, as `out/0/a.log@0-4.txt`.
#[derive(Drop)]
pub struct Attempt {
    alloc: Global,
    job: Text,
    folder: Text,
    /// The begun targets in byte order, each with the name of its staged file.
    files: Vec<(Text, Text)>,
}

impl Model for Attempt {
    ghost use Rattle.gob_bytes.specs.Tables.{names_of};
    ghost use Rattle.gob_stage.specs.Attempt.{AttemptValue};
    ghost use Rattle.gob_stage.specs.Inside.{AreStagingTargets};

    ghost Value = { AttemptValue };

    ghost view = { λ a. record { job = a.job; folder = a.folder; begun = names_of a.files.items } };

    ghost invariant = { λ a. AreStagingTargets a.folder a.files.items };
}

impl Attempt {
    /// Nothing is staged yet.
    pub fn new(alloc: Global, job: &str, unit: u32, attempt: u32) -> Result<Attempt, NoMemory>
        requires { IsPathname job.now }
        ensures { IfOk result (λ a. a ≡ new_attempt job.now unit attempt) }
    {
        let folder = folder_name(alloc, job, unit, attempt)?;
        let job = Text::from_str(alloc, job)?;
        Ok(Attempt {
            alloc,
            job,
            folder,
            files: Vec::new(alloc),
        })
    }

    /// Adds bytes at the end of a target's staged file, which the first call for the target makes, even of no bytes.
    /// After an error the file may hold anything.
    pub fn append<V: Volume>(
        &mut self,
        volume: &mut V,
        target: &str,
        bytes: &[u8],
    ) -> Result<(), StageFault>
        requires named { IsPathname target.now }
        requires there { IfSome (V.disk volume.old) (λ d. AreThere self.old d.files) }
        ensures begun { OnOk result (self.new ≡ after_begin target.now self.old) }
        ensures disk { OnOk result
            (V.disk volume.new ≡ option_map (after_staging self.old target.now bytes.now) (V.disk volume.old)) }
        ensures holds { OnOk result (Both (HoldsMore self.old target.now bytes.now) (V.disk volume.old)
            (V.disk volume.new)) }
        ensures there { OnOk result (IfSome (V.disk volume.new) (λ d. AreThere self.new d.files)) }
        ensures err { OnErr result (self.new ≡ self.old) }
        ensures only { Along (OnlyAt (staged_name self.old target.now)) (V.disk volume.old) (V.disk volume.new) }
        ensures below { Along (OnlyBelow self.old.folder) (V.disk volume.old) (V.disk volume.new) }
        ensures cause { HasCause (V.faults volume.old) (V.faults volume.new) (result ≡ Err StageFault.Failed) }
    {
        match get(self.files.as_slice(), target) {
            Some(name) => {
                volume.append(name.as_str(), bytes)?;
                Ok(())
            }
            None => self.begin(volume, target, bytes),
        }
    }

    // Makes a target's file.
    fn begin<V: Volume>(
        &mut self,
        volume: &mut V,
        target: &str,
        bytes: &[u8],
    ) -> Result<(), StageFault>
        requires named { IsPathname target.now }
        requires new { is_begun self.old target.now ≡ false }
        ensures begun { OnOk result (self.new ≡ after_begin target.now self.old) }
        ensures disk { OnOk result
            (V.disk volume.new ≡ option_map (after_staging self.old target.now bytes.now) (V.disk volume.old)) }
        ensures err { OnErr result (self.new ≡ self.old) }
        ensures only { Along (OnlyAt (staged_name self.old target.now)) (V.disk volume.old) (V.disk volume.new) }
        ensures cause { HasCause (V.faults volume.old) (V.faults volume.new) (result ≡ Err StageFault.Failed) }
    {
        let name = self.new_name(target)?;
        make_file(volume, name.as_str(), bytes)?;
        set(self.alloc, &mut self.files, target, name)?;
        Ok(())
    }

    // The name of a target's staged file.
    fn new_name(&self, target: &str) -> Result<Text, NoMemory>
        requires { IsPathname target.now }
        ensures name { IfOk result (λ name. name ≡ staged_name self.now target.now) }
        ensures path { IfOk result (λ name. IsPathname name) }
    {
        let mut name = self.folder.copy()?;
        name.push(target)?;
        Ok(name)
    }

    /// Syncs the files, and tells where they are staged and where they are to be published, in byte order of targets.
    pub fn finish<V: Volume>(self, volume: &mut V) -> Result<List<StagedFile>, StageFault>
        requires { IfSome (V.disk volume.old) (λ d. AreThere self d.files) }
        ensures files { IfOk result (λ files. files ≡ staged_files self) }
        ensures order { IfOk result (λ files. IsInByteOrder (map (λ f. f.to) files)) }
        ensures disk { OnOk result (V.disk volume.new ≡ option_map (after_sync_calls self) (V.disk volume.old)) }
        ensures holds { OnOk result (Both (HoldsAll self) (V.disk volume.old) (V.disk volume.new)) }
        ensures below { Along (OnlyBelow self.folder) (V.disk volume.old) (V.disk volume.new) }
        ensures cause { HasCause (V.faults volume.old) (V.faults volume.new) (result ≡ Err StageFault.Failed) }
    {
        sync_files(volume, self.files.as_slice())?;
        let files = staged_list(self.alloc, self.job.as_str(), self.files.as_slice())?;
        Ok(files)
    }
}

// Syncs files that are there, each once.
fn sync_files<V: Volume>(volume: &mut V, files: &[(Text, Text)]) -> Result<(), StageFault>
    requires named { list_all is_pathname (map (λ e. e.1) files.now) ≡ true }
    requires there { IfSome (V.disk volume.old) (λ d. EachThere (map (λ e. e.1) files.now) d.files) }
    ensures disk { OnOk result (V.disk volume.new
        ≡ option_map (after_syncs (map (λ e. e.1) files.now)) (V.disk volume.old)) }
    ensures only { Along (OnlyAmong (map (λ e. e.1) files.now)) (V.disk volume.old) (V.disk volume.new) }
    ensures cause { HasCause (V.faults volume.old) (V.faults volume.new) (result ≡ Err StageFault.Failed) }
{
    for (_, name) in files {
        volume.sync(name.as_str())?;
    }
    Ok(())
}

// Where files are staged, and where they are to be published.
fn staged_list(
    alloc: Global,
    job: &str,
    files: &[(Text, Text)],
) -> Result<List<StagedFile>, NoMemory>
    ensures { IfOk result (λ list. list ≡ map (staged_entry job.now) files.now) }
{
    let mut list = List::with_capacity(alloc, files.len())?;
    for (target, name) in files {
        let file = staged_file(alloc, job, target, name)?;
        list.push(file)?;
    }
    Ok(list)
}

fn staged_file(alloc: Global, job: &str, target: &Text, name: &Text) -> Result<StagedFile, NoMemory>
    ensures { IfOk result (λ file. file ≡ staged_entry job.now (target.now, name.now)) }
{
    let from = name.copy()?;
    let mut to = Text::from_str(alloc, job)?;
    to.push("/")?;
    to.push(target.as_str())?;
    Ok(StagedFile { from, to })
}

// The folder of an attempt's files.
fn folder_name(alloc: Global, job: &str, unit: u32, attempt: u32) -> Result<Text, NoMemory>
    ensures { IfOk result (λ name. name ≡ attempt_folder job.now unit attempt) }
{
    let mut name = Text::from_str(alloc, job)?;
    name.push("/stage/")?;
    name.push(Buffer::new().format(unit))?;
    name.push("-")?;
    name.push(Buffer::new().format(attempt))?;
    name.push("/")?;
    Ok(name)
}

// Makes a file that holds these bytes.
fn make_file<V: Volume>(volume: &mut V, name: &str, bytes: &[u8]) -> Result<(), StageFault>
    requires { IsPathname name.now }
    ensures disk { OnOk result (V.disk volume.new ≡ option_map (after_making name.now bytes.now) (V.disk volume.old)) }
    ensures only { Along (OnlyAt name.now) (V.disk volume.old) (V.disk volume.new) }
    ensures cause { HasCause (V.faults volume.old) (V.faults volume.new) (result ≡ Err StageFault.Failed) }
{
    volume.create(name)?;
    volume.append(name, bytes)?;
    Ok(())
}
