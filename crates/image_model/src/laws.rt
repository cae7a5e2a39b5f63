//! Laws over the definitions, each the contract of a function that does nothing.

ghost use Rattle.image_model.specs.LinkLaws.{LinksReadBack};
ghost use Rattle.image_model.specs.LinkTables.{LinkTablesFit};
ghost use Rattle.image_model.specs.ReadBack.{FieldsReadBack, FilesReadBack, SectionsReadBack};

/// The header of a written file has the fields that were written, and its object table, name
/// tables, import modules and entry table are read as those of the image.
pub fn sections_read_again()
    ensures fields { FieldsReadBack }
    ensures sections { SectionsReadBack }
{}

/// A written file is read again: it has no fault, and its parts are those of the image, which are
/// name, flags, start, objects, pages, records, imports, entries, names and references.
pub fn files_read_again()
    ensures { FilesReadBack }
{}

/// The file of a link whose image fits has the link's name, flags, start and import modules, and
/// objects with the layout's sizes, linked bases and flags.
pub fn links_read_again()
    ensures { LinksReadBack }
{}

/// In the image of a link each page has its records, the pages of each object are in the page
/// table, and the module flags are those of a program or a library.
pub fn link_tables_fit()
    ensures { LinkTablesFit }
{}
