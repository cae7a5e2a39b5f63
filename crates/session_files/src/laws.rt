//! A law of sessions.
ghost use Rattle.session_files.specs.ShortSessions.{SessionsAreShort};

/// Bytes say no more modules than there are bytes.
pub fn sessions_are_short()
    ensures { SessionsAreShort }
{}
