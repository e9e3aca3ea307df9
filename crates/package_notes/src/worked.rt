//! Computed examples, for the proof alone: each function has an empty body, and the check computes its contract.
ghost use Rattle.std.specs.Prelude.{◌≡◌, [], ◌∷◌, Some, None, codes};
ghost use Rattle.package_notes.specs.Files.{file_notes, folder_notes};
ghost use Rattle.package_notes.specs.Notes.{ini_notes_in, yaml_notes};
ghost use Rattle.package_notes.specs.declared.notes.Note.TheVariants.{IniKey, LimitKey, LoneAnswer, Memory, OtherFile, OtherFolder, Output, OutsideFile, StandardTime, YamlKey};

/// Notes on small files, and files beside them on which there are none.
pub fn worked_notes()
    ensures misspelt { yaml_notes (codes "name: a\nmemroy: 64\n") ≡ YamlKey 2 (codes "memroy") ∷ [] }
    ensures below { yaml_notes (codes "keywords:\n- memroy: 1\nname: a\n") ≡ YamlKey 1 (codes "keywords") ∷ [] }
    ensures under_limits { yaml_notes (codes "limits:\n  memroy: 64\n") ≡ LimitKey 2 (codes "memroy") ∷ [] }
    ensures on_one_line { yaml_notes (codes "limits: {memroy: 64, memory: 1}\n") ≡ LimitKey 1 (codes "memroy") ∷ [] }
    ensures cut_down { yaml_notes (codes "limits:\n  memory: 257\n  output: 65\n") ≡ Memory 257 ∷ Output 65 ∷ [] }
    ensures the_most { yaml_notes (codes "limits:\n  memory: 256\n  output: 64\n") ≡ [] }
    ensures comment { yaml_notes (codes "# memroy: 64\nname: a\n") ≡ [] }
    ensures settings { ini_notes_in (Some (codes "color=red\ntimelimit=1\n# a=b\n; c=d\n")) ≡ IniKey 1 (codes "color") ∷ [] }
    ensures no_limit { ini_notes_in (Some (codes "# timelimit=1\n")) ≡ StandardTime ∷ [] }
    ensures no_file { ini_notes_in None ≡ StandardTime ∷ [] }
{}

/// Notes on the files and folders of `data` in the package `p`, and files beside them on which there are none.
pub fn worked_files()
    ensures test { file_notes (codes "p") (codes "p/data/secret/1.ans" ∷ codes "p/data/secret/1.in" ∷ []) ≡ [] }
    ensures lone { file_notes (codes "p") (codes "p/data/secret/1.ans" ∷ codes "p/data/secret/2.in" ∷ []) ≡ LoneAnswer (codes "data/secret/1.ans") ∷ [] }
    ensures other { file_notes (codes "p") (codes "p/data/secret/01.IN" ∷ []) ≡ OtherFile (codes "data/secret/01.IN") ∷ [] }
    ensures outside { file_notes (codes "p") (codes "p/data/1.in" ∷ []) ≡ OutsideFile (codes "data/1.in") ∷ [] }
    ensures elsewhere { file_notes (codes "p") (codes "p/data/extra/1.txt" ∷ []) ≡ [] }
    ensures folders { folder_notes (codes "p/data") (codes "p/data/extra/1.in" ∷ codes "p/data/extra/2.in" ∷ codes "p/data/secrets/x" ∷ []) ≡ OtherFolder (codes "extra") ∷ OtherFolder (codes "secrets") ∷ [] }
    ensures tests { folder_notes (codes "p/data") (codes "p/data/1.in" ∷ codes "p/data/sample/a/b" ∷ codes "p/data/secret/1.in" ∷ []) ≡ [] }
{}
