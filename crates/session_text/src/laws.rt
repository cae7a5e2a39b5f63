//! What is read can be written, and what is written is read.

ghost use Rattle.session_text.specs.Writable.{SessionsAreWritable, WrittenIsRead};

/// A session that bytes say is within bounds, and its names are words.
pub fn sessions_are_writable()
    ensures { SessionsAreWritable }
{}

/// What is written of such a session says it.
pub fn written_is_read()
    ensures { WrittenIsRead }
{}
