use farm_kinds::Text;

/// How the answers of a problem are checked.
#[derive(Clone, Copy, Debug, PartialEq, Eq)]
pub enum Validation {
    /// By the default output validator.
    Default,
    /// By a program of the problem's own.
    Custom,
}

/// What `problem.yaml` says of a problem.
#[derive(Debug, Drop)]
pub struct Yaml {
    /// The problem's name, as it is shown. Empty where the file says none.
    pub name: Text,
    /// How outputs are checked.
    pub validation: Validation,
    /// The flags of the validator.
    pub flags: Text,
    /// The memory of a run, in MiB: from 1 to 256.
    pub memory: u32,
    /// The output of a run, in MiB: from 1 to 64.
    pub output: u32,
}

/// What is wrong with a line of `problem.yaml`.
#[derive(Clone, Copy, Debug, PartialEq, Eq)]
pub enum YamlWhy {
    /// A tab stands in the indentation.
    Tab,
    /// No indented line may stand there, or it is indented otherwise than the lines beside it.
    Indent,
    /// The line has no colon that ends a key.
    NoColon,
    /// The key stood before.
    Repeated,
    /// A quote is not closed on its line.
    Open,
    /// A backslash stands before another byte than `"`, `\`, `n` or `t`.
    BadEscape,
    /// The value has a form of YAML that is not read, or bytes behind its closing quote.
    Form,
    /// The value is none that the key takes.
    BadValue,
    /// The problem is interactive.
    Interactive,
    /// The validator gives scores.
    Score,
}

/// The first faulty line.
#[derive(Clone, Copy, Debug, PartialEq, Eq)]
pub struct BadLine {
    /// Its number, from 1.
    pub line: u32,
    /// What is wrong with it.
    pub why: YamlWhy,
}

/// Why `problem.yaml` says nothing.
#[derive(Clone, Copy, Debug, PartialEq, Eq)]
pub enum YamlFault {
    /// The first faulty line, by its number from 1.
    Bad { line: u32, why: YamlWhy },
    /// No memory was left.
    NoMemory,
}
