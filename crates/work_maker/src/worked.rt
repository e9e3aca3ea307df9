//! Computed examples, for the proof alone: each function has an empty body, and the check computes its contract.
ghost use Rattle.std.specs.Prelude.{◌≡◌, ◌++◌, ◌∷◌, [], ℕ, List, codes, map, Some};
ghost use Rattle.rv_word.specs.Table.{instruction_of};
ghost use Rattle.farm_tree.specs.declared.reads.TreeFile.{TreeFile};
ghost use Rattle.work_maker.specs.declared.programs.Program.TheVariants as program;
ghost use Rattle.work_maker.specs.Programs.{words_of, instructions_of, image_of};
ghost use Rattle.work_maker.specs.Files.{made_files, file_with};

/// The words of the programs are those of their instructions.
#[tactic(auto, unfolding(rv_word::specs::Table::instruction_of))]
pub fn worked_programs()
    ensures echo { map instruction_of (words_of program.Echo) ≡ map Some (instructions_of program.Echo) }
    ensures silent { map instruction_of (words_of program.Silent) ≡ map Some (instructions_of program.Silent) }
    ensures endless { map instruction_of (words_of program.Loop) ≡ map Some (instructions_of program.Loop) }
    ensures fail { map instruction_of (words_of program.Fail) ≡ map Some (instructions_of program.Fail) }
    ensures half { map instruction_of (words_of program.Half) ≡ map Some (instructions_of program.Half) }
    ensures greedy { map instruction_of (words_of program.Greedy) ≡ map Some (instructions_of program.Greedy) }
{}

/// The contest of number 0 with one problem and three submissions.
pub fn worked_contest()
    ensures { made_files 0 1 3
        ≡ file_with (codes "contest/problems/p1/problem.yaml") (codes "name: p1\nlimits:\n  memory: 1\n")
        ∷ file_with (codes "contest/problems/p1/domjudge-problem.ini") (codes "timelimit=0.01\n")
        ∷ file_with (codes "contest/problems/p1/data/secret/01.in") (codes "256\n")
        ∷ file_with (codes "contest/problems/p1/data/secret/01.ans") (codes "256\n")
        ∷ file_with (codes "contest/submissions/1.rv32") (image_of program.Greedy)
        ∷ file_with (codes "contest/submissions/2.rv32") (image_of program.Echo)
        ∷ file_with (codes "contest/submissions/3.rv32") (0 ∷ 0 ∷ 0 ∷ [])
        ∷ file_with (codes "contest/submissions.txt") (codes "1 t0 p1 1.rv32\n2 t5 p1 2.rv32\n3 t4 p1 3.rv32\n") ∷ [] }
{}
