//! What `clap` makes of the words.
ghost use Rattle.std.specs.Prelude.{◌≡◌, IfOk, IfSome, IfNone, true, false, map, string_bytes};
ghost use Rattle.clap.specs.Words.{subcommand_rows_of};
ghost use Rattle.command_line.specs.CommandLine.{is_accepted, named_command};

use crate::grammar::farm_command;
use clap::ArgMatches;
use clap::error::ErrorKind;
use farm_kinds::NoMemory;
use std::alloc::Global;

/// What the grammar finds in the words. None where it refuses them.
#[tactic(auto, unfolding(crate::specs::CommandLine::is_accepted, crate::specs::CommandLine::named_command))]
pub(crate) fn parse<'a>(
    alloc: Global,
    words: &'a [String],
) -> Result<Option<ArgMatches<'a>>, NoMemory>
    ensures accepted { IfOk result (λ found. IfSome found (λ matches. is_accepted (map string_bytes words.entry.now) ≡ true)) }
    ensures named { IfOk result (λ found. IfSome found (λ matches.
        subcommand_rows_of matches ≡ named_command (map string_bytes words.entry.now))) }
    ensures refused { IfOk result (λ found. IfNone found (is_accepted (map string_bytes words.entry.now) ≡ false)) }
{
    let command = farm_command(alloc)?;
    match command.try_get_matches_from(words) {
        Ok(matches) => Ok(Some(matches)),
        Err(error) if error.kind() == ErrorKind::OutOfMemory => Err(NoMemory),
        Err(_) => Ok(None),
    }
}
