//! A register with its last reply.

ghost use Rattle.std.specs.Prelude.{◌≡◌};
ghost use Rattle.olr_c.specs.Called.{Called, IsNew};
ghost use Rattle.olr_c.specs.Called as called;

use olr_register::Register;
use olr_run::{RunFault, Scratch, Status, run_bytes};
use std::alloc::Global;

/// A register and its last reply.
#[derive(Drop)]
pub struct Keep {
    /// The register.
    pub register: Register,
    /// The last reply.
    pub reply: Vec<u8>,
    /// Buffers for records, reused from call to call.
    scratch: Scratch,
}

impl Keep {
    /// A register of an empty map and no paths. Takes no memory.
    pub fn new(alloc: Global) -> Keep
        ensures { IsNew result }
    {
        Keep {
            register: Register::new(alloc),
            reply: Vec::new(alloc),
            scratch: Scratch::new(alloc),
        }
    }

    /// Carries out records, and stores their replies as the last reply. Returns 0 if all were accepted, 1 if some were
    /// rejected, and 4 if an allocation failed before the last one was answered.
    pub fn ask(&mut self, alloc: Global, records: &[u8]) -> u8
        ensures { Called self.old.register records.now self.new.register self.new.reply.items result }
    {
        self.reply.clear();
        let ended = run_bytes(
            alloc,
            &mut self.register,
            records,
            &mut self.reply,
            false,
            &mut self.scratch,
        );
        code_of(&ended)
    }
}

/// The status that is returned to C for a run.
fn code_of(ended: &Result<Status, RunFault>) -> u8
    ensures { result ≡ called.code_of ended.now }
{
    match ended {
        Ok(Status::AllAccepted) => 0,
        Ok(Status::SomeRefused | Status::Stopped) => 1,
        Err(_) => 4,
    }
}
