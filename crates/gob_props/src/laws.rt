//! What a properties text says, in the words of its format. Each function states a law; it takes nothing and does
//! nothing.

ghost use Rattle.std.specs.Prelude.{List};
ghost use Rattle.gob_props.specs.Properties.{KeyValue};
ghost use Rattle.gob_props.specs.Laws.{EntriesReadBack, NaturalLinesAreTheText, PutsEntry};

/// Natural lines hold no line end, and with their line ends they are the text.
pub fn natural_lines_are_the_text()
    ensures { NaturalLinesAreTheText }
{}

/// The last of equal keys counts, in the place of the first.
pub fn keys_keep_their_places()
    ensures { (es : List KeyValue) (new : KeyValue) → PutsEntry es new }
{}

/// Entries that are written out are read back.
pub fn entries_read_back()
    ensures { EntriesReadBack }
{}
