// Which folder a record goes to.
ghost use Rattle.std.specs.Prelude.{◌≡◌, ℕ, ◌⊎◌, List, [], ◌∷◌, ◌++◌, take, OnOk, OnErr};

use std::alloc::AllocError;

/// Tells the folder of a record by its text, as it stands in a name before the file's own part.
pub trait Placer {
    type Rec;

    ghost place: { Self → Self.Rec → List ℕ };

    /// Appends the folder's text; where memory is wanted, a beginning of it.
    fn push_place(&self, rec: &Self::Rec, into: &mut Vec<u8>) -> Result<(), AllocError>
        ensures ok { OnOk result (into.new.items ≡ into.old.items ++ place self.now rec.now) }
        ensures err { OnErr result ((n : ℕ) × (into.new.items ≡ into.old.items ++ take n (place self.now rec.now))) };

    // the text is empty or ends in a slash
    ghost ends: { (p : Self) (rec : Self.Rec) →
        (place p rec ≡ []) ⊎ ((front : List ℕ) × (place p rec ≡ front ++ 47 ∷ [])) };
}
