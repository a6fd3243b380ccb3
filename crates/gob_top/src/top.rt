//! The top call.
ghost use Rattle.std.specs.Prelude.{◌≤◌, map, string_bytes};
ghost use Rattle.gob_top.specs.Answers.{Delivered, Told};
ghost use Rattle.gob_top.specs.Commands.{Answered};
ghost use Rattle.gob_top.specs.Made.{told_when_done};

use crate::Report;
use crate::answer::{answer, deliver};
use crate::check::check;
use crate::command::{Command, command_of};
use crate::recover::recover;
use crate::report::report;
use crate::run::run;
use crate::stopped::Stopped;
use gob_io::{Sink, Source};
use gob_report::Refusal;
use gob_volume::Volume;
use std::alloc::Global;

/// Does what the words of a command line ask for, writes one text by one call of the sink, and answers the exit
/// status. The words are `run JOB`, `recover JOB`, `report JOB` or `check JOB`.
pub fn gobblin<S: Source, V: Volume, O: Sink>(
    alloc: Global,
    words: &[String],
    source: &mut S,
    volume: &mut V,
    out: &mut O,
) -> u8
    // What is told has its causes, and it was delivered.
    ensures answered { (t : Told)
        × Answered (map string_bytes words.now)
        (record {
          supply = S.supply source.old;
          source_faults = S.faults source.old;
          plan_faults = S.plan_faults source.old;
          disk = V.disk volume.old;
          volume_faults = V.faults volume.old;
        })
        (record {
          supply = S.supply source.new;
          source_faults = S.faults source.new;
          plan_faults = S.plan_faults source.new;
          disk = V.disk volume.new;
          volume_faults = V.faults volume.new;
        })
        t
        × Delivered result t (O.output out.old) (O.output out.new) (O.faults out.old) (O.faults out.new) }
    ensures sink_goes_on { O.faults out.old ≤ O.faults out.new }
{
    let done = do_command(alloc, words, source, volume);
    let told = answer(alloc, done);
    deliver(&told, out)
}

// Does what the words ask for.
fn do_command<S: Source, V: Volume>(
    alloc: Global,
    words: &[String],
    source: &mut S,
    volume: &mut V,
) -> Result<Report, Stopped>
    ensures { Answered (map string_bytes words.now)
        (record {
          supply = S.supply source.old;
          source_faults = S.faults source.old;
          plan_faults = S.plan_faults source.old;
          disk = V.disk volume.old;
          volume_faults = V.faults volume.old;
        })
        (record {
          supply = S.supply source.new;
          source_faults = S.faults source.new;
          plan_faults = S.plan_faults source.new;
          disk = V.disk volume.new;
          volume_faults = V.faults volume.new;
        })
        (told_when_done result) }
{
    match command_of(words) {
        Some(Command::Run(job)) => run(alloc, job, source, volume),
        Some(Command::Recover(job)) => recover(alloc, job, volume),
        Some(Command::Report(job)) => report(alloc, job, volume),
        Some(Command::Check(job)) => check(alloc, job, volume),
        None => Err(Stopped {
            refusal: Refusal::Usage,
        }),
    }
}
