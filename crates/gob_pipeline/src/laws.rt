//! The laws of machines and buffers. No function works here: each takes nothing and does nothing.
ghost use Rattle.gob_pipeline.specs.Laws.{AnyCutMakesTheSame, BytesBehindAStopAreFed, EndsOfLinesAreFed};
ghost use Rattle.gob_pipeline.specs.Laws.{FilledBuffersAreSent, PiecesFillBuffers, RestsAreFed};

/// Whatever pieces a unit's bytes are cut into, a machine makes the same of them.
pub fn any_cut_makes_the_same()
    ensures { AnyCutMakesTheSame }
{}

/// A machine that takes a line at its end, keeps what ends no line, and passes over what comes behind its stop is fed
/// one more piece by each of these.
pub fn steps_feed_a_machine()
    ensures ends { EndsOfLinesAreFed }
    ensures rests { RestsAreFed }
    ensures stopped { BytesBehindAStopAreFed }
{}

/// The targets that have bytes, each once, have all that is in the buffers; and what was added to empty buffers is what
/// they have.
pub fn filled_buffers_are_sent()
    ensures filled { FilledBuffersAreSent }
    ensures piece { PiecesFillBuffers }
{}
