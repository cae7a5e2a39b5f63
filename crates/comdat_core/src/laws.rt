//! Laws over the definitions, each the contract of a function that does nothing.

ghost use Rattle.comdat_core.specs.Nothing.{BareIsKept, KeptIsBare, LinksAlike};

/// Where nothing is taken out of an input, all of it is kept but the lists of COMDATs, and what it is linked to without these
/// it is linked to.
pub fn nothing_taken_links_alike()
    ensures kept { KeptIsBare }
    ensures bare { BareIsKept }
    ensures links { LinksAlike }
{}
