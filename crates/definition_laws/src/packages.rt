//! Laws, for the proof alone: each function has an empty body, and its contract is the law.
ghost use Rattle.std.specs.Prelude.{◌≡◌, ◌≤◌, ◌<◌, ◌+◌, ◌↔◌, ◌++◌, ℕ, List, Some, Ok, Err, codes, take};
ghost use Rattle.std.specs.List.{Contains, sum};
ghost use Rattle.farm_tree.specs.declared.reads.TreeFile.{TreeFile};
ghost use Rattle.farm_tree.specs.Reading.{file_at};
ghost use Rattle.package_folder.specs.declared.package.Package.{Package};
ghost use Rattle.package_folder.specs.declared.package.Test.{Test};
ghost use Rattle.package_folder.specs.declared.package.PackageFault.TheVariants.{TooMuch};
ghost use Rattle.package_folder.specs.Order.{IsRising};
ghost use Rattle.package_folder.specs.Package.{package_of};
ghost use Rattle.package_folder.specs.Reading.{total_from, total_limit};
ghost use Rattle.definition_laws.specs.TestFiles.{in_data, HasInput, names_of};
ghost use Rattle.definition_laws.specs.TestSizes.{AreReadable, sizes_of};

/// The tests of a package are its inputs: there is one of each name that has a file `data/NAME.in` below `sample`
/// or `secret`, and no other; they stand in the order of their names' bytes, each once; and each has the bytes of its
/// input and of its answer.
pub fn each_input_is_one_test()
    ensures inputs { (files : List TreeFile) (path : List ℕ) (ips : ℕ) (read : Package)
        → package_of files path ips ≡ Ok read
        → (name : List ℕ) → Contains (names_of read.tests) name ↔ HasInput files path name }
    ensures in_order { (files : List TreeFile) (path : List ℕ) (ips : ℕ) (read : Package)
        → package_of files path ips ≡ Ok read
        → IsRising (names_of read.tests) }
    ensures input { (files : List TreeFile) (path : List ℕ) (ips : ℕ) (read : Package)
        → package_of files path ips ≡ Ok read
        → (test : Test) → Contains read.tests test
        → file_at files (in_data path (test.name ++ codes ".in")) ≡ Some test.input }
    ensures answer { (files : List TreeFile) (path : List ℕ) (ips : ℕ) (read : Package)
        → package_of files path ips ≡ Ok read
        → (test : Test) → Contains read.tests test
        → file_at files (in_data path (test.name ++ codes ".ans")) ≡ Some test.answer }
{}

/// Where the files of all tests can be read, the total of their bytes is that of all of them where this is within the
/// limit, and else the fault names that of the first files that are not, each input before its answer.
pub fn a_package_is_too_large_at_its_first_file_past_the_limit()
    ensures within { (files : List TreeFile) (path : List ℕ) (stems : List (List ℕ)) → AreReadable files stems
        → sum (sizes_of files stems) ≤ total_limit → total_from files path 0 stems ≡ Ok (sum (sizes_of files stems)) }
    ensures first_past { (files : List TreeFile) (path : List ℕ) (stems : List (List ℕ)) (k : ℕ) → AreReadable files stems
        → sum (take k (sizes_of files stems)) ≤ total_limit → total_limit < sum (take (k + 1) (sizes_of files stems))
        → total_from files path 0 stems ≡ Err (TooMuch (sum (take (k + 1) (sizes_of files stems)))) }
{}
