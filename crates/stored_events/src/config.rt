//! The first record of a store, which says of which configuration it is, and what a crash leaves before it is there.
ghost use Rattle.std.specs.Prelude.{◌≡◌};
ghost use Rattle.hex.specs.Hex.{decode_sized};
ghost use Rattle.stored_events.specs.Opening.{config_line, config_of, written_so, is_first_record, is_unborn};

/// The line of a configuration with this digest.
pub fn config_line(digest: &[u8; 32]) -> [u8; 71]
    ensures { result ≡ config_line digest.now }
{
    let mut line = *b"config 0000000000000000000000000000000000000000000000000000000000000000";
    // There is room for 64 digits.
    let _written = hex::encode_to_slice(digest, &mut line[7..]);
    line
}

/// The digest that the line of a configuration says. None where the line is that of no configuration.
pub fn config_of(line: &[u8]) -> Option<[u8; 32]>
    ensures { result ≡ config_of line.now }
{
    if line.len() < 7 || &line[..7] != b"config ".as_slice() {
        return None;
    }
    written_digest(&line[7..])
}

/// The digest that the digits are written of, in lower case.
fn written_digest(digits: &[u8]) -> Option<[u8; 32]>
    ensures { result ≡ written_so digits.now (decode_sized digits.now 32) }
{
    let mut digest = [0u8; 32];
    if hex::decode_to_slice(digits, &mut digest).is_err() {
        return None;
    }
    let mut written = [0u8; 64];
    let _written = hex::encode_to_slice(&digest, &mut written);
    if written.as_slice() == digits {
        Some(digest)
    } else {
        None
    }
}

/// Whether a crash of a first opening leaves these bytes.
pub fn looks_unborn(file: &[u8]) -> bool
    ensures { result ≡ is_unborn file.now }
{
    file.len() <= 75 && (file.len() <= 1 || file[0] == 0 || is_first_record(&file[1..]))
}

/// Whether the bytes behind the first one are the record of a configuration and a closed gate.
fn is_first_record(behind: &[u8]) -> bool
    ensures { result ≡ is_first_record behind.now }
{
    if behind.len() != 74 || behind[73] != 0 {
        return false;
    }
    if &behind[..2] != [71, 0].as_slice() {
        return false;
    }
    config_of(&behind[2..73]).is_some()
}
