//! The command file.

ghost use Rattle.std.specs.Prelude.{option_map};
ghost use Rattle.olr_run.specs.Opens.{OpensFile};

use std::io;

/// Opens the command file. None if there is no name.
pub fn open_file<F: Drop, O: FnOnce(&str) -> io::Result<F>>(
    opener: O,
    name: Option<&str>,
) -> io::Result<Option<F>>
    requires { O.IsAlwaysCallable opener }
    ensures { OpensFile O.FnOnce opener (option_map (λ n. n.now) name.entry) result }
{
    match name {
        None => Ok(None),
        Some(name) => opener(name).map(Some),
    }
}
