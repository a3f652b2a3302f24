//! The command that words say.

ghost use Rattle.salt_promise.specs.Words.{asks_audit, command_of, folder_of};
ghost use Rattle.std.specs.Option.{option_copied};
ghost use Rattle.std.specs.Prelude.{◌≡◌};

use crate::counts::count_in;
use crate::settings::settings_in;
use salt_place::Shape;
use salt_promise::Command;
use salt_values::limits::CALLS_MOST;

/// The command that the words say, if they say one: `run` and its settings, or `load` and a number of calls. It takes no memory.
pub fn command_in(words: &[String]) -> Option<Command>
    ensures { result ≡ command_of words.now }
{
    match words {
        [word, settings @ ..] if word.as_bytes() == b"run".as_slice() => {
            let settings = settings_in(settings)?;
            Some(Command::Script {
                shape: Shape {
                    parts: settings.parts,
                    kind: settings.kind,
                },
                early: settings.early,
                over_net: settings.over_net,
            })
        }
        [word, calls] if word.as_bytes() == b"load".as_slice() => {
            Some(Command::Load(count_in(CALLS_MOST, calls.as_str())?))
        }
        _ => None,
    }
}

/// Whether the words are `audit` alone. It takes no memory.
pub fn asks_audit(words: &[String]) -> bool
    ensures { result ≡ asks_audit words.now }
{
    match words {
        [word] => word.as_bytes() == b"audit".as_slice(),
        _ => false,
    }
}

/// The folder that a run is told by the words, if they say a run and name a folder. It takes no memory.
pub fn folder_of(words: &[String]) -> Option<&str>
    ensures { option_copied result ≡ folder_of words.now }
{
    match words {
        [word, settings @ ..] if word.as_bytes() == b"run".as_slice() => {
            settings_in(settings)?.folder
        }
        _ => None,
    }
}
