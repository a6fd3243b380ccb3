//! The texts that the program writes, word by word: definitions and their laws. No function works here.
#![tactic(auto)]

ghost use Rattle.gob_texts.specs.Examples.{WorkedCommands, WorkedRefusals, WorkedTexts};
ghost use Rattle.gob_texts.specs.Laws.{TellsWatermark};

/// The texts of small runs, by computing.
pub fn worked_texts()
    ensures { WorkedTexts }
{}

/// What `report`, `recover` and `check` tell, by computing.
pub fn worked_commands()
    ensures { WorkedCommands }
{}

/// The line and the status of every refusal, by computing.
pub fn worked_refusals()
    ensures { WorkedRefusals }
{}

/// Of ranges that tile their partition a mark line tells the watermark.
pub fn mark_tells_the_watermark()
    ensures { TellsWatermark }
{}
