//! The address of a machine that a text writes.
ghost use Rattle.std.specs.Prelude.{◌≡◌};
ghost use Rattle.command_line.specs.Addresses.{address_of};

use std::net::IpAddr;

/// The address that the text writes. None where it writes none.
pub(crate) fn read_address(text: &str) -> Option<IpAddr>
    ensures { result ≡ address_of text.now }
{
    text.parse::<IpAddr>().ok()
}
