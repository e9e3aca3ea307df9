ghost use Rattle.std.specs.Prelude.{◌≡◌, ℕ, List, [], ◌∷◌, codes, true, false};
ghost use Rattle.farm_tree.specs.declared.reads.TreeFile.{TreeFile};
ghost use Rattle.farm_tree.specs.declared.entries.Entry.{Entry};
ghost use Rattle.farm_tree.specs.Listing.{entries_below};

/// A folder leads to the first component of what lies below it, once for each file.
pub fn worked_listing()
    ensures { let file : List ℕ → TreeFile = λ path. record { path = path; bytes = [] } in
        let files = file (codes "c/a/1") ∷ file (codes "c/b") ∷ file (codes "cc/x") ∷ file (codes "c/a/2/3") ∷ file (codes "c") ∷ [] in
        let entry : Entry = record { name = codes "a"; folder = true } in
        entries_below (codes "c") files ≡ entry ∷ record { name = codes "b"; folder = false } ∷ entry ∷ [] }
{}

/// A folder is where a path goes on with a slash: the empty path and one that ends in a slash are as any other.
pub fn worked_folders()
    ensures none { entries_below (codes "a") (record { path = codes "a"; bytes = [] } ∷ []) ≡ [] }
    ensures slash { entries_below (codes "a/") (record { path = codes "a/b"; bytes = [] } ∷ []) ≡ [] }
    ensures empty { entries_below [] (record { path = codes "a/b"; bytes = [] } ∷ []) ≡ [] }
    ensures root { entries_below [] (record { path = codes "/b"; bytes = [] } ∷ []) ≡ record { name = codes "b"; folder = false } ∷ [] }
    ensures double { entries_below (codes "a") (record { path = codes "a//b"; bytes = [] } ∷ []) ≡ record { name = []; folder = true } ∷ [] }
{}
