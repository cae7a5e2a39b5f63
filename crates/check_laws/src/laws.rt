//! A law, the contract of a function that does nothing.

ghost use Rattle.check_laws.specs.ChecksByLinks.{ChecksByLinks};

/// A text is the transcript of a run of a session, of which modules were built, by the bytes that the loader has of the files exactly
/// where it is one by the bytes that the links mean; and otherwise it goes wrong first at one line and in one kind by both.
pub fn checks_by_links()
    ensures { ChecksByLinks }
{
    run_laws::built_bytes_are_held();
    load_model::histories_grow();
}
