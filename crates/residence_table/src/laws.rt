//! What holds of the residences of a legal history.

ghost use Rattle.residence_table.specs.Laws.{LegalResidencesStand};

/// The residences of a legal history are of modules of the library, stand in their arenas, and have serial
/// numbers of their own.
pub fn legal_residences_stand()
    ensures { LegalResidencesStand }
{
    load_model::residents_are_reached();
    load_model::reached_is_fit();
    load_model::residences_stand();
    load_model::serials_rise();
}
