//! A law of the pages.

ghost use Rattle.gen_core.specs.Meant.{WordsAreMeant};

/// The words of the modules' pages, fixed where the modules stand, are those that their links mean ("32-bit
/// Linear eXecutable Module Format": "Fixup Record Table").
pub fn words_are_meant()
    ensures { WordsAreMeant }
{
    gen_laws::inputs_are_whole();
    gen_laws::modules_load();
    layer_laws::linked_bytes_are_loaded();
}
