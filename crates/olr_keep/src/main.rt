//! `olr-keep` keeps published OpenLR strings correct while the road map under them is edited.
//!
//! Commands are read as CSV records from a file and from standard input. Replies are written to standard output.
#![tactic(auto)]

ghost use Rattle.std.specs.Prelude.{⊤};
ghost use Rattle.sqlite_disk.specs.Disk.{Only};

use olr_host::{HostDisk, LogFolder, Unknown, open_place, open_records, set_aside};
use olr_log::{LogFile, OpenError};
use olr_run::{Buffered, OpenLog, RunFault, WRONG_ARGUMENTS, program, report_fault};
use std::process::ExitCode;
use std::{env, io};

/// The arguments of the command line. It fails if one of them is not UTF-8, or if an allocation fails.
fn arguments(rt: &HostRuntime) -> io::Result<Vec<String>> {
    let arguments = env::args(rt)?.collect(rt.alloc())?;
    Ok(arguments)
}

/// Reports why there are no arguments, and returns the exit status.
fn without_arguments(rt: &HostRuntime, error: &io::Error) -> u8 {
    if error.kind() == io::ErrorKind::OutOfMemory {
        return report_fault(RunFault::Memory, &mut rt.stderr());
    }
    let _ = eprintln!(rt; "olr-keep: a word of the command line is no text");
    WRONG_ARGUMENTS
}

/// The logs of the file system.
#[derive(Drop)]
struct Logs<'a> {
    rt: &'a HostRuntime,
}

impl<'a> OpenLog<HostDisk<Unknown>, LogFolder<'a>> for Logs<'a> {
    ghost may_be = { λ _ _ _ _ stored left. Only stored left };

    ghost refuses = { λ _ _ _ _. ⊤ };

    /// Opens a log, or makes it. What stands behind its text is set aside, and that is said.
    fn open(
        &self,
        name: &str,
        is_new: bool,
    ) -> Result<LogFile<HostDisk<Unknown>, LogFolder<'a>>, OpenError> {
        let (disk, folder) = open_place(self.rt, name, is_new, Unknown)?;
        let mut log = LogFile::open(self.rt.alloc(), disk, folder)?;
        let bytes = log.left_over();
        if let Some(aside) = set_aside(&mut log)? {
            let _ = eprintln!(self.rt;
                "olr-keep: moved the last {bytes} bytes of {name}, from a record or batch that isn't whole on, to {aside}"
            );
        }
        Ok(log)
    }
}

/// Runs the program on the files and the streams of the process.
fn run(rt: &HostRuntime, arguments: &[String]) -> u8 {
    let Ok(mut output) = Buffered::new(rt.alloc(), io::writer(rt)) else {
        return report_fault(RunFault::Memory, &mut rt.stderr());
    };
    let (status, log) = program(
        rt.alloc(),
        arguments,
        |name: &str| open_records(rt, name),
        &Logs { rt },
        rt.reader(),
        &mut output,
        &mut rt.stderr(),
    );
    drop(log);
    status
}

fn main(rt: HostRuntime) -> ExitCode {
    let status = match arguments(&rt) {
        Ok(arguments) => run(&rt, arguments.as_slice()),
        Err(error) => without_arguments(&rt, &error),
    };
    ExitCode::from(status)
}
