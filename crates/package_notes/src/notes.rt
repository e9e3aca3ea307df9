use farm_kinds::Text;

/// Something in the folder of a package that is skipped, or otherwise than one may think who wrote it.
#[derive(Debug, Drop)]
pub enum Note {
    /// A key of `problem.yaml` that is not read, and the number of its line from 1.
    YamlKey { line: u32, key: Text },
    /// A key under `limits` that is not read, and the number of its line from 1.
    LimitKey { line: u32, key: Text },
    /// A memory of `said` MiB, which is cut down to 256.
    Memory { said: u32 },
    /// An output of `said` MiB, which is cut down to 64.
    Output { said: u32 },
    /// A key of `domjudge-problem.ini` that is not read, and the number of its line from 1.
    IniKey { line: u32, key: Text },
    /// Nothing sets the time limit, which is 1 second then.
    StandardTime,
    /// An answer of `data/sample` or `data/secret` beside which no input lies; its path below the package's folder.
    LoneAnswer { name: Text },
    /// A file there that is neither an input nor an answer; its path below the package's folder.
    OtherFile { name: Text },
    /// A file of `data` itself; its path below the package's folder.
    OutsideFile { name: Text },
    /// A folder of `data` that is neither `sample` nor `secret`, by its name.
    OtherFolder { name: Text },
    /// There are validators in `output_validators`, and `problem.yaml` asks for none.
    Validators,
    /// A file of `output_validators` that is asked for and begins as an ELF file; its path below the package's folder.
    ElfValidator { name: Text },
}
