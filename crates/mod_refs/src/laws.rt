//! What holds of the counts of a legal history.

ghost use Rattle.mod_refs.specs.Laws.{LegalCountsAreKept};

/// The counts of a legal history are kept: each is of a process that holds modules of the library, and no more
/// than 65,535 loads of each. So whoever keeps counts beside a legal history may ask for every change of them.
pub fn legal_counts_are_kept()
    ensures { LegalCountsAreKept }
{
    lx_model::order_is_reach();
    load_model::residents_are_reached();
    load_model::reached_is_fit();
    load_model::counts_are_small();
}
