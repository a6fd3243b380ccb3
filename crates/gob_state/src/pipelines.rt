//! The texts of pipelines.
ghost use Rattle.std.specs.Prelude.{◌≡◌, ◌↔◌, length, IfOk, IsTrue};
ghost use Rattle.std.specs.List.{IsDistinct, flat_map, list_any};
ghost use Rattle.std.specs.Str.{bytes_eq};
ghost use Rattle.gob_ledger.specs.Spelling.{IsKeptPipeline, pipeline_part};
ghost use Rattle.gob_text.specs.Words.{GoesOnAtAll};
ghost use Rattle.gob_state.specs.Reads.{ReadsSpelling};
ghost use Rattle.gob_state.specs.Settings.{ArePipelines};

use crate::lines::take_numbered;
use crate::settings::take_settings;
use gob_plan::{List, NoMemory, Text};
use gob_text::Words;
use std::alloc::Global;
use std::collections::HashSet;

/// The number of a pipeline's lines, and then its lines.
pub fn take_pipeline(alloc: Global, text: &mut Words) -> Result<Option<Text>, NoMemory>
    ensures { IfOk result (λ taken. ReadsSpelling pipeline_part IsKeptPipeline GoesOnAtAll text.old text.new taken) }
{
    let Some(lines) = take_numbered(text, b"pipeline") else {
        return Ok(None);
    };
    let settings = take_settings(alloc, text, lines)?;
    Ok(settings)
}

/// So many pipelines.
pub fn take_pipelines(
    alloc: Global,
    text: &mut Words,
    count: u64,
) -> Result<Option<List<Text>>, NoMemory>
    ensures { IfOk result (λ taken.
        ReadsSpelling (λ ps. flat_map pipeline_part ps) (ArePipelines count) GoesOnAtAll text.old text.new taken) }
{
    let mut pipelines = List::new(alloc);
    for _ in 0..count {
        let Some(pipeline) = take_pipeline(alloc, text)? else {
            return Ok(None);
        };
        pipelines.push(pipeline)?;
    }
    Ok(Some(pipelines))
}

/// Whether the pipeline is one of these.
pub fn has_pipeline(pipelines: &[Text], pipeline: &str) -> bool
    ensures { result ≡ list_any (bytes_eq pipeline.now) pipelines.now }
{
    pipelines.iter().any(|p| p.as_str() == pipeline)
}

/// Whether no two of the pipelines are the same. Looks each of them up once, by its hash.
pub fn are_distinct(alloc: Global, pipelines: &[Text]) -> Result<bool, NoMemory>
    ensures { IfOk result (λ yes. IsTrue yes ↔ IsDistinct bytes_eq pipelines.now) }
{
    let mut seen = HashSet::new(alloc);
    for pipeline in pipelines {
        if !seen.insert(pipeline.as_str())? {
            return Ok(false);
        }
    }
    Ok(true)
}
