//! What transcripts are, line by line.

ghost use Rattle.transcript_lines.specs.LinesOf.{TextsAreLines};
ghost use Rattle.transcript_lines.specs.Following.{LinesBegin, LinesFollow};

/// The text of what a transcript tells is its lines in turn.
pub fn texts_are_lines()
    ensures { TextsAreLines }
{}

/// Lines that follow each other to an end are those of a transcript; a transcript begins with lines exactly where they follow
/// each other.
pub fn lines_follow()
    ensures whole { LinesFollow }
    ensures begin { LinesBegin }
{}
