//! The words of a command line.
ghost use Rattle.std.specs.Prelude.{◌∷◌, [], map, string_bytes};
ghost use Rattle.gob_top.specs.Lines.{IsCommand};

use gob_text::is_job_name;

/// What a command line asks for, of the job with this name.
#[derive(Clone, Copy)]
pub(crate) enum Command<'a> {
    Run(&'a str),
    Recover(&'a str),
    Report(&'a str),
    Check(&'a str),
}

/// The command of these words, or None where they are no command line.
pub(crate) fn command_of(words: &[String]) -> Option<Command<'_>>
    ensures { IsCommand (map string_bytes words.now) result }
{
    match words {
        [verb, job] => command_with(verb.as_str(), job.as_str()),
        _ => None,
    }
}

// The command of a verb and a job's name.
fn command_with<'a>(verb: &str, job: &'a str) -> Option<Command<'a>>
    ensures { IsCommand (verb.now ∷ job.now ∷ []) result }
{
    if !is_job_name(job) {
        return None;
    }
    match verb {
        "run" => Some(Command::Run(job)),
        "recover" => Some(Command::Recover(job)),
        "report" => Some(Command::Report(job)),
        "check" => Some(Command::Check(job)),
        _ => None,
    }
}
