ghost use Rattle.std.specs.Prelude.{◌≡◌, ◌++◌, ◌∷◌, [], OnOk, OnErr};

use default_validator::{FlagFault, Flags};
use farm_kinds::{Limits, NoMemory, Text};
use problem_settings::YamlWhy;
use std::alloc::Global;
use std::marker::Model;

/// One test of a problem.
#[derive(Debug, Drop)]
pub struct Test {
    /// The path of its files below `data`, without their ending: `secret/01`.
    pub name: Text,
    /// What a program reads.
    pub input: Text,
    /// The judge's answer.
    pub answer: Text,
}

/// Tests in rank order. Contracts see a list.
#[derive(Debug, Drop)]
pub struct Tests {
    tests: Vec<Test>,
}

impl Model for Tests {
    ghost use Rattle.std.specs.Prelude.{List};
    ghost use Rattle.package_folder.specs.declared.package.Test.{Test};

    ghost Value = { List Test };

    ghost view = { λ t. t.tests.items };
}

impl Tests {
    /// No tests.
    pub fn new(alloc: Global) -> Tests
        ensures { result ≡ [] }
    {
        Tests {
            tests: Vec::new(alloc),
        }
    }

    /// The tests of a vector, without taking memory.
    pub fn from_vec(tests: Vec<Test>) -> Tests
        ensures { result ≡ tests.items }
    {
        Tests { tests }
    }

    /// Gives the tests back, without taking memory: the other half of `from_vec`, as each list type has it.
    pub fn into_vec(self) -> Vec<Test>
        ensures { result.items ≡ self }
    {
        self.tests
    }

    /// Adds a test at the end. At `NoMemory` nothing changes.
    pub fn push(&mut self, test: Test) -> Result<(), NoMemory>
        ensures ok { OnOk result (self.new ≡ self.old ++ test ∷ []) }
        ensures err { OnErr result (self.new ≡ self.old) }
    {
        self.tests.push(test).map_err(|_| NoMemory)
    }

    /// The tests in order.
    pub fn as_slice(&self) -> &[Test]
        ensures { result.now ≡ self.now }
    {
        self.tests.as_slice()
    }
}

/// How outputs are checked.
#[derive(Debug, Drop)]
pub enum Checker {
    /// By the default output validator with these flags.
    Default(Flags),
    /// By a program of the problem's own, a raw image, which is given the flags.
    Custom { image: Text, flags: Text },
}

/// A problem, as its folder says it.
#[derive(Debug, Drop)]
pub struct Package {
    /// The name that is shown.
    pub name: Text,
    /// From 1 to 1,000 tests: those of `data/sample`, and then those of `data/secret`.
    pub tests: Tests,
    /// What a run on one test may use.
    pub limits: Limits,
    /// How its output is checked.
    pub check: Checker,
}

/// Why a folder is no package: the first fault in this order. `TooLarge`, `Tree` and `NoMemory` end the reading
/// where they are met.
#[derive(Debug, Drop)]
pub enum PackageFault {
    /// It has no `problem.yaml`.
    NoYaml,
    /// The first faulty line of `problem.yaml`.
    Yaml { line: u32, why: YamlWhy },
    /// The first faulty line of `domjudge-problem.ini`.
    Ini { line: u32 },
    /// The first faulty word of the flags of the default validator.
    Flags(FlagFault),
    /// `data` or a folder below it has this `testdata.yaml`.
    Groups { name: Text },
    /// The first test that has no answer, or whose files are gone when they are read.
    MissingAnswer { name: Text },
    /// It has no tests.
    NoTests,
    /// It has so many tests, which are more than 1,000.
    TooManyTests { count: u64 },
    /// The test files have more than 256 MiB: so many bytes up to the file that passed this.
    TooMuch { total: u64 },
    /// The first test whose answer has a number that is too large for a tolerance, and the token's place from 0.
    WideAnswer { name: Text, at: usize },
    /// It has no validator of its own.
    NoValidator,
    /// It has so many validators, which are more than one.
    ManyValidators { count: u64 },
    /// The validator is a folder, or a file whose name does not end in `.rv32`.
    SourceValidator { name: Text },
    /// The validator is no raw image.
    BadValidator { name: Text },
    /// A file has so many bytes, which are more than 16 MiB; its path below the package's folder.
    TooLarge { name: Text, len: u64 },
    /// The tree failed.
    Tree,
    /// No memory was left.
    NoMemory,
}

impl From<NoMemory> for PackageFault {
    ghost use Rattle.package_folder.specs.declared.package.PackageFault.TheVariants as fault;

    ghost from_gives = { λ _ given. given ≡ fault.NoMemory };

    fn from(_: NoMemory) -> PackageFault {
        PackageFault::NoMemory
    }
}
