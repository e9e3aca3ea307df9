ghost use Rattle.std.specs.Prelude.{◌≡◌, ℕ, List, [], ◌∷◌, codes, Ok, Err, None, true, false};
ghost use Rattle.farm_kinds.specs.declared.limits.Limits.{Limits};
ghost use Rattle.default_validator.specs.declared.flags.Flags.{Flags};
ghost use Rattle.package_folder.specs.declared.package.Test.{Test};
ghost use Rattle.farm_tree.specs.declared.reads.TreeFile.{TreeFile};
ghost use Rattle.package_folder.specs.Names.{stems_of, paths_below};
ghost use Rattle.package_folder.specs.Reading.{custom_check};
ghost use Rattle.package_folder.specs.Package.{package_of};

use crate::package::{Checker, PackageFault};

/// Tests of the files below `data`: those of `sample`, and then those of `secret`, by the bytes of their names.
pub fn worked_tests()
    ensures order { let file : List ℕ → TreeFile = λ path. record { path = path; bytes = [] } in
        let files = file (codes "d/secret/a.in") ∷ file (codes "d/secret/a-b/1.in") ∷ file (codes "d/sample/z.in") ∷ file (codes "d/sample/z.ans")
        ∷ file (codes "d/secret/a-b/1.ans") ∷ file (codes "d/secret/a.ans") ∷ file (codes "d/note") ∷ file (codes "e/sample/1.in") ∷ [] in
        stems_of (codes "d") (paths_below (codes "d") files) ≡ Ok (codes "d/sample/z" ∷ codes "d/secret/a" ∷ codes "d/secret/a-b/1" ∷ []) }
    ensures missing { stems_of (codes "d") (codes "d/secret/1.in" ∷ []) ≡ Err (PackageFault.MissingAnswer (codes "secret/1")) }
    ensures groups { stems_of (codes "d") (codes "d/secret/1.in" ∷ codes "d/secret/testdata.yaml" ∷ []) ≡ Err (PackageFault.Groups (codes "secret/testdata.yaml")) }
    ensures none { stems_of (codes "d") (codes "d/secret/1.ans" ∷ []) ≡ Err PackageFault.NoTests }
{}

/// The one entry of `output_validators` is a program.
pub fn worked_validators()
    ensures source { let files : List TreeFile = record { path = codes "p/output_validators/check.cpp"; bytes = codes "int" } ∷ [] in
        custom_check files (codes "p") [] ≡ Err (PackageFault.SourceValidator (codes "check.cpp")) }
    ensures program { let files : List TreeFile = record { path = codes "p/output_validators/a.rv32"; bytes = 1 ∷ 2 ∷ 3 ∷ 4 ∷ [] } ∷ [] in
        custom_check files (codes "p") [] ≡ Ok (Checker.Custom (1 ∷ 2 ∷ 3 ∷ 4 ∷ []) []) }
    ensures many { let file : List ℕ → TreeFile = λ path. record { path = path; bytes = [] } in
        custom_check (file (codes "p/output_validators/a") ∷ file (codes "p/output_validators/b/c") ∷ file (codes "p/output_validators/b/d") ∷ []) (codes "p") []
        ≡ Err (PackageFault.ManyValidators 2) }
    ensures none { custom_check [] (codes "p") [] ≡ Err PackageFault.NoValidator }
{}

/// A folder without `problem.yaml` is no package.
#[tactic(auto, unfolding(crate::specs::Package::package_of))]
pub fn worked_folder()
    ensures { package_of [] (codes "p") 1000 ≡ Err PackageFault.NoYaml }
{}

/// The package of a folder with one test: the limits and the flags are the standard ones.
#[tactic(auto, unfolding(crate::specs::Package::package_of, problem_settings::specs::ProblemYaml::yaml_of, default_validator::specs::Accepts::wide_token_of))]
pub fn worked_package()
    ensures { let file : List ℕ → List ℕ → TreeFile = λ path text. record { path = path; bytes = text } in
        let files = file (codes "p/data/secret/1.ans") (codes "8\n") ∷ file (codes "p/data/secret/1.in") (codes "7\n") ∷ file (codes "p/problem.yaml") (codes "name: E\n") ∷ [] in
        let one : Test = record { name = codes "secret/1"; input = codes "7\n"; answer = codes "8\n" } in
        let limits : Limits = record { instructions = 2000; pages = 16384; output = 8388608 } in
        let flags : Flags = record { case = false; space = false; tolerance = record { relative = None; absolute = None } } in
        package_of files (codes "p") 2000 ≡ Ok record { name = codes "E"; tests = one ∷ []; limits = limits; check = Checker.Default flags } }
{}
