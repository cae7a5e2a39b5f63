//! What the definitions say together.

ghost use Rattle.lx_write.specs.LinkImages.{LinkImagesAreWritten};
ghost use Rattle.lx_write.specs.WrittenLaws.{WrittenRecordsFit, WrittenTablesFit};

/// An image that has the parts of a link is written as the link's module.
pub fn link_images_are_written()
    ensures { LinkImagesAreWritten }
{}

/// The numbers of the fixup records of an image fit their fields, where the import procedure names
/// have places of 32 bits.
pub fn written_records_fit()
    ensures { WrittenRecordsFit }
{}

/// Each page of an image that can be written has its records, the pages of each object are in the
/// page table, and the objects of the start and of the stack are there.
pub fn written_tables_fit()
    ensures { WrittenTablesFit }
{}
