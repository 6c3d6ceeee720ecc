ghost use Rattle.std.specs.Prelude.{◌≡◌, ◌++◌, ℕ, List, Some};
ghost use Rattle.fx_base.specs.Acts.{File, Event, World, Did, DidPart, Stands, acts, pieces, files_of};

/// All acts of events append their pieces to the listing, and their files to the shelf.
pub fn all_acts_in_words()
    ensures { (events : List Event) (text : List ℕ) (files : List File) (old now : World)
        → old.written ≡ Some text
        → old.files ≡ Some files
        → Did old now (acts events)
        → (now.written ≡ Some (text ++ pieces events)) × (now.files ≡ Some (files ++ files_of events)) }
{}

/// A prefix of the acts of events is some whole events and a prefix of the next.
pub fn front_part_in_words()
    ensures { (events : List Event) (text : List ℕ) (files : List File) (old now : World)
        → old.written ≡ Some text
        → old.files ≡ Some files
        → DidPart old now (acts events)
        → Stands events text files now }
{}
