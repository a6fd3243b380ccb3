//! How what a stopped run left is settled.

ghost use Rattle.std.specs.Prelude.{◌≡◌, ◌≤◌, ℕ, List, [], is_some, IfErr, IfOk, IfSome, MatchOption, None, OnOk};
ghost use Rattle.gob_bytes.specs.Paths.{sequence_name, under};
ghost use Rattle.gob_device.specs.Disk.{AddsMaps, Along};
ghost use Rattle.gob_device.specs.Names.{IsPathname};
ghost use Rattle.gob_recovery.specs.Commits.{OnlyBelow};
ghost use Rattle.gob_recovery.specs.Sequence.{WellFormed};
ghost use Rattle.gob_recovery.specs.Settle.{IsDamaged, Settles};
ghost use Rattle.gob_seq.specs.Maps.{EndsBy, CanFinish, SettlingGoesOn, ImagesSettleTheSame, SettlesByName};
ghost use Rattle.gob_seq.specs.Maps.{SettlesTheSame};
ghost use Rattle.gob_seq.specs.Maps.{OnlyUnstages, SettlesUnstaged};
ghost use Rattle.gob_seq.specs.Faults.{DamageDue, Damages, RoseIfSettleFailed};

use crate::SettleFault;
use crate::place::Place;
use crate::read::read_sequence;
use crate::sequence::Sequence;
use crate::staging::clean_staging;
use crate::steps::{finish, first_lost};
use gob_plan::Text;
use gob_volume::Volume;
use std::alloc::Global;

/// What was settled.
#[derive(Clone, Copy, Debug, PartialEq, Eq)]
pub struct Settled {
    /// A sequence was open, and has been done.
    pub was_open: bool,
}

/// Does an open sequence to its end, and takes away what is staged. It may be stopped anywhere and be called again.
pub fn settle<V: Volume>(alloc: Global, volume: &mut V, job: &str) -> Result<Settled, SettleFault>
    requires named { IsPathname job.now }
    ensures same { Along (SettlesTheSame job.now) (V.disk volume.old) (V.disk volume.new) }
    ensures images { Along (ImagesSettleTheSame job.now) (V.disk volume.old) (V.disk volume.new) }
    ensures readers { Along (SettlesByName job.now) (V.disk volume.old) (V.disk volume.new) }
    ensures unstages { Along (OnlyUnstages job.now) (V.disk volume.old) (V.disk volume.new) }
    ensures ok { OnOk result (AddsMaps (EndsBy (Settles job.now)) (V.disk volume.old) (V.disk volume.new)) }
    ensures was_open { IfOk result (λ s. IfSome (V.disk volume.old)
        (λ d. s.was_open ≡ is_some (d.files (sequence_name job.now)))) }
    ensures damaged { IfErr result (Damages job.now (V.disk volume.old) (V.disk volume.new)) }
    ensures due { IfSome (V.disk volume.old) (λ d. (name : List ℕ) → IsDamaged job.now d.files name
        → DamageDue name result × (V.disk volume.new ≡ V.disk volume.old)) }
    ensures below { Along (OnlyBelow (under job.now [])) (V.disk volume.old) (V.disk volume.new) }
    ensures err { IfErr result (RoseIfSettleFailed (V.faults volume.old) (V.faults volume.new)) }
    ensures goes_on { V.faults volume.old ≤ V.faults volume.new }
{
    let was_open = finish_open(alloc, volume, job)?;
    clean_staging(alloc, volume, job)?;
    Ok(Settled { was_open })
}

// Does an open sequence to its end, and answers whether there was one.
fn finish_open<V: Volume>(alloc: Global, volume: &mut V, job: &str) -> Result<bool, SettleFault>
    requires named { IsPathname job.now }
    ensures goes { Along (SettlingGoesOn job.now) (V.disk volume.old) (V.disk volume.new) }
    ensures readers { Along (SettlesByName job.now) (V.disk volume.old) (V.disk volume.new) }
    ensures unstages { Along (OnlyUnstages job.now) (V.disk volume.old) (V.disk volume.new) }
    ensures ok { OnOk result (AddsMaps (EndsBy (SettlesUnstaged job.now)) (V.disk volume.old) (V.disk volume.new)) }
    ensures was_open { IfOk result (λ was. IfSome (V.disk volume.old)
        (λ d. was ≡ is_some (d.files (sequence_name job.now)))) }
    ensures damaged { IfErr result (Damages job.now (V.disk volume.old) (V.disk volume.new)) }
    ensures due { IfSome (V.disk volume.old) (λ d. (name : List ℕ) → IsDamaged job.now d.files name
        → DamageDue name result × (V.disk volume.new ≡ V.disk volume.old)) }
    ensures below { Along (OnlyBelow (under job.now [])) (V.disk volume.old) (V.disk volume.new) }
    ensures err { IfErr result (RoseIfSettleFailed (V.faults volume.old) (V.faults volume.new)) }
    ensures goes_on { V.faults volume.old ≤ V.faults volume.new }
{
    let place = Place::new(alloc, job)?;
    let opened = place.sequence.as_str();
    let Some(sequence) = open_sequence(alloc, volume, job, opened)? else {
        return Ok(false);
    };
    finish(volume, opened, sequence.steps())?;
    Ok(true)
}

// The open sequence, which can be done.
fn open_sequence<V: Volume>(
    alloc: Global,
    volume: &mut V,
    job: &str,
    name: &str,
) -> Result<Option<Sequence>, SettleFault>
    requires named { IsPathname name.now }
    requires is { name.now ≡ sequence_name job.now }
    ensures found { IfOk result (λ found. IfSome (V.disk volume.old) (λ d. MatchOption found
        (d.files name.now ≡ None) (CanFinish job.now d.files))) }
    ensures fits { IfOk result (λ found. IfSome found (WellFormed job.now)) }
    ensures damaged { IfErr result (Damages job.now (V.disk volume.old) (V.disk volume.new)) }
    ensures disk { V.disk volume.new ≡ V.disk volume.old }
    ensures err { IfErr result (RoseIfSettleFailed (V.faults volume.old) (V.faults volume.new)) }
    ensures goes_on { V.faults volume.old ≤ V.faults volume.new }
{
    let Some(bytes) = volume.read(alloc, name)? else {
        return Ok(None);
    };
    let Some(sequence) = read_sequence(alloc, job, bytes.as_slice())? else {
        let damaged = Text::from_str(alloc, name)?;
        return Err(SettleFault::Damaged { name: damaged });
    };
    if let Some(source) = first_lost(volume, sequence.steps())? {
        let lost = Text::from_str(alloc, source)?;
        return Err(SettleFault::Damaged { name: lost });
    }
    Ok(Some(sequence))
}
