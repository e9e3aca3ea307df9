ghost use Rattle.std.specs.Prelude.{◌≡◌};
ghost use Rattle.farm_kinds.specs.Limits.{is_raw_image};

/// What one run of an image may use.
#[derive(Clone, Copy, Debug, PartialEq, Eq)]
pub struct Limits {
    /// Instructions, with a read or a write of n bytes counted as n more.
    pub instructions: u64,
    /// Pages of 4,096 bytes.
    pub pages: u32,
    /// Bytes of output.
    pub output: u32,
}

/// Whether the bytes are a raw image of a program: whole words of 4 bytes, at least one of them and
/// at most 1 MiB.
pub fn raw_image(bytes: &[u8]) -> bool
    ensures { result ≡ is_raw_image bytes.now }
{
    let len = bytes.len();
    len >= 4 && len <= 1_048_576 && len % 4 == 0
}

/// The most problems that a farm has.
pub const MAX_PROBLEMS: u32 = 1_000;
/// The most versions of a problem.
pub const MAX_VERSIONS: u32 = 1_000;
/// The most tests of a problem, and so of a judging.
pub const MAX_TESTS: u32 = 1_000;
/// The most hosts of a farm.
pub const MAX_HOSTS: u32 = 1_000;
/// The most leases that a host holds.
pub const MAX_HELD: u32 = 64;
/// The most tests that a host fetches at once.
pub const MAX_BATCH: u32 = 16;
/// The most submissions of a farm.
pub const MAX_SUBMISSIONS: u32 = 100_000;
/// The most judgings of a farm.
pub const MAX_JUDGINGS: u32 = 400_000;
/// The most rejudgings of a farm.
pub const MAX_REJUDGINGS: u32 = 10_000;
