ghost use Rattle.std.specs.Prelude.{◌≡◌, [], map, IfOk, IsErrOf, codes, option_map};
ghost use Rattle.clap.specs.Faults.{fault_of};
ghost use Rattle.clap.specs.Kinds.{FailsBy};
ghost use Rattle.clap.specs.Simple.{HasMatchesOf};
ghost use Rattle.pb_cli.specs.ServeWords.{serve};
ghost use Rattle.pb_cli.specs.Reading.{value_of_option};

use crate::ports::PortsFault;
use clap::error::ErrorKind;
use clap::{Arg, ArgAction, ArgMatches, Command, Error};
use std::alloc::Global;

/// The values of the two options. The first word is the command's name.
pub(crate) fn find_options<'a>(
    alloc: Global,
    words: &'a [&'a str],
) -> Result<(Option<&'a str>, Option<&'a str>), PortsFault>
    ensures taken { IfOk result (λ found. fault_of serve (map (λ s. s.now) words.entry.now) ≡ []) }
    ensures control { IfOk result (λ found. option_map (λ s. s.now) found.0 ≡ value_of_option (map (λ s. s.now) words.entry.now) (codes "control")) }
    ensures records { IfOk result (λ found. option_map (λ s. s.now) found.1 ≡ value_of_option (map (λ s. s.now) words.entry.now) (codes "data")) }
    ensures usage { IsErrOf result PortsFault.Usage → ¬ (fault_of serve (map (λ s. s.now) words.entry.now) ≡ []) }
{
    match find_matches(alloc, words) {
        Ok(matches) => Ok((matches.get_str("control"), matches.get_str("data"))),
        Err(error) => Err(match error.kind() {
            ErrorKind::OutOfMemory => PortsFault::OutOfMemory,
            _ => PortsFault::Usage,
        }),
    }
}

/// What clap makes of the words.
fn find_matches<'a>(alloc: Global, words: &'a [&'a str]) -> Result<ArgMatches<'a>, Error>
    ensures matches { IfOk result (HasMatchesOf serve (map (λ s. s.now) words.entry.now)) }
    ensures kinds { FailsBy (fault_of serve (map (λ s. s.now) words.entry.now)) result }
{
    let control = Arg::new(alloc, "control")
        .long("control")
        .action(ArgAction::Set)
        .default_value("8888");
    let records = Arg::new(alloc, "data")
        .long("data")
        .action(ArgAction::Set)
        .default_value("8889");
    let serve = Command::new(alloc, "serve").arg(control)?.arg(records)?;
    serve.try_get_matches_from(words)
}
