//! A law over the symbols of a link.

ghost use Rattle.link_model.specs.Link.{Link};
ghost use Rattle.link_types.specs.Symbols.{SymbolTable};
ghost use Rattle.link_types.specs.Binding.{AreSymbolsOf};
ghost use Rattle.link_place.specs.Meanings.{HasMeanings};

/// The symbols of a link have the meaning of each external of each chosen module, and of nothing else.
pub fn symbols_have_meanings()
    ensures { (l : Link) (s : SymbolTable) → AreSymbolsOf l s → HasMeanings l s }
{}
