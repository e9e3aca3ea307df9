ghost use Rattle.std.specs.Prelude.{◌≡◌, ◌≤◌, ◌-◌, Some, IfSome, slice_get, codes};
ghost use Rattle.parallel_judge.specs.UnderWay.{all_hosts};

use farm_kinds::Name;

/// The name of a host thread: `h1` for the first one, up to `h16`.
pub(crate) fn host_name(number: u16) -> Name
    requires { (1 ≤ number) × (number ≤ 16) }
    ensures { slice_get all_hosts (number - 1) ≡ Some result }
{
    Name::read(host_word(number)).unwrap_or(Name::jury())
}

/// The number of the host that works by the pass of this number, which is the same. There is none where no host does.
pub(crate) fn host_number(pass: u64) -> Option<u16>
    ensures { IfSome result (λ number. (number ≡ pass) × (1 ≤ number) × (number ≤ 16)) }
{
    match u16::try_from(pass) {
        Ok(number @ 1..=16) => Some(number),
        _ => None,
    }
}

fn host_word(number: u16) -> &'static [u8]
    requires { (1 ≤ number) × (number ≤ 16) }
    ensures { slice_get all_hosts (number - 1) ≡ Some result.now }
{
    match number {
        1 => b"h1",
        2 => b"h2",
        3 => b"h3",
        4 => b"h4",
        5 => b"h5",
        6 => b"h6",
        7 => b"h7",
        8 => b"h8",
        9 => b"h9",
        10 => b"h10",
        11 => b"h11",
        12 => b"h12",
        13 => b"h13",
        14 => b"h14",
        15 => b"h15",
        _ => b"h16",
    }
}

/// Who claims what no other host has done.
pub(crate) fn caller() -> Name
    ensures { result ≡ codes "h0" }
{
    Name::read(b"h0").unwrap_or(Name::jury())
}
