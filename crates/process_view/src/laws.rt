//! What views stand for. Each law is the contract of a function that does nothing, which a crate above calls where it
//! needs the law.

ghost use Rattle.process_view.specs.PageLaws.{PagesStand};

/// A page more that is mapped as its fixups leave it.
pub fn pages_stand()
    ensures { PagesStand }
{}
