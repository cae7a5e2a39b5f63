//! The first fault of a file that is shown.

use lx_types::LxRefusal;
use obj_types::OmfRefusal;
use res_model::ResRefusal;

/// The first fault of a file, by the kind of file that it was read as.
#[derive(Clone, Copy)]
pub enum ShowFault {
    /// Of an object file or a library.
    Object(OmfRefusal),
    Module(LxRefusal),
    Resources(ResRefusal),
}
