//! A text tells one thing.

ghost use Rattle.transcript_laws.specs.TellsOne.{TextsTellOne, TranscriptsTellOneRun};

/// Over one library a text in the form of a transcript tells one thing; so transcripts that are the same are of one run.
pub fn texts_tell_one()
    ensures told { TextsTellOne }
    ensures runs { TranscriptsTellOneRun }
{}
