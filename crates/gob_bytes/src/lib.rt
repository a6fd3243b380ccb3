//! What bytes, names, numbers and lines are: the definitions that every other crate cites. No function works here.
//! Each function states a law about these definitions; it takes nothing and does nothing.
#![tactic(auto)]

ghost use Rattle.std.specs.Prelude.{ℕ, List};
ghost use Rattle.gob_bytes.specs.Digits.{OffsetsHaveOneForm};
ghost use Rattle.gob_bytes.specs.Numbers.{NumbersHaveOneForm};
ghost use Rattle.gob_bytes.specs.Escapes.{EscapesTellNamesApart};
ghost use Rattle.gob_bytes.specs.Lines.{LinesJoin, LinesFill, LineEndsAreTold};

/// A number has one spelling that is read.
pub fn numbers_have_one_form()
    ensures { NumbersHaveOneForm }
{}

/// An offset has twenty digits and one spelling.
pub fn offsets_have_one_form()
    ensures { OffsetsHaveOneForm }
{}

/// Different names are escaped differently.
pub fn escapes_tell_names_apart()
    ensures { EscapesTellNamesApart }
{}

/// The lines of a text that comes in two pieces.
pub fn lines_join()
    ensures { (x y : List ℕ) → LinesJoin x y }
{}

/// The lines of a text stand one after the other, and with its rest they are the whole text.
pub fn lines_fill()
    ensures { (bytes : List ℕ) → LinesFill bytes }
{}

/// Whoever sees where the line feeds of a text stand sees where its lines end.
pub fn line_ends_are_told()
    ensures { LineEndsAreTold }
{}
