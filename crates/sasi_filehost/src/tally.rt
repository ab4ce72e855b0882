// What a host of real files counts.
ghost use Rattle.std.specs.Prelude.{◌≡◌, ◌≤◌, ◌-◌, ◌^◌, Ok, IsErr, IfOk, OnErr, is_err};
ghost use Rattle.sasi_filehost.specs.HostCounts.{no_calls, after_call, after_emit};

use sasi_host::Failed;

// How many calls were made, how many of them failed, and whether the last one did. A count stays at the last value of its type.
#[derive(Clone, Copy)]
pub struct Tally {
    pub disk_faults: u64,
    pub out_faults: u64,
    pub reads: u64,
    pub calls: u64,
    pub emits: u64,
    pub failed_last: bool,
}

impl Tally {
    pub fn new() -> Tally
        ensures { result ≡ no_calls }
    {
        Tally {
            disk_faults: 0,
            out_faults: 0,
            reads: 0,
            calls: 0,
            emits: 0,
            failed_last: false,
        }
    }

    // Counts a file call.
    pub fn count_call(&mut self, failed: bool)
        ensures counts { self.new ≡ after_call failed self.old }
        ensures few { self.old.calls ≤ 2 ^ 64 - 1 }
        ensures later { self.old.disk_faults ≤ self.new.disk_faults }
    {
        self.calls = self.calls.saturating_add(1);
        self.failed_last = failed;
        if failed {
            self.disk_faults = self.disk_faults.saturating_add(1);
        }
    }

    // Counts an emit.
    pub fn count_emit(&mut self, failed: bool)
        ensures counts { self.new ≡ after_emit failed self.old }
        ensures few { self.old.emits ≤ 2 ^ 64 - 1 }
        ensures later { self.old.out_faults ≤ self.new.out_faults }
    {
        self.emits = self.emits.saturating_add(1);
        self.failed_last = failed;
        if failed {
            self.out_faults = self.out_faults.saturating_add(1);
        }
    }

    // Counts a file call that has this result.
    pub fn call<T, E: Drop>(&mut self, answer: Result<T, E>) -> Result<T, Failed>
        ensures same { IfOk result (λ value. answer ≡ Ok value) }
        ensures failed { OnErr result (IsErr answer) }
        ensures counts { self.new ≡ after_call (is_err result) self.old }
        ensures few { self.old.calls ≤ 2 ^ 64 - 1 }
        ensures later { self.old.disk_faults ≤ self.new.disk_faults }
    {
        match answer {
            Ok(value) => {
                self.count_call(false);
                Ok(value)
            }
            Err(_) => {
                self.count_call(true);
                Err(Failed)
            }
        }
    }

    // Counts an emit that has this result.
    pub fn emit<E: Drop>(&mut self, answer: Result<(), E>) -> Result<(), Failed>
        ensures same { IfOk result (λ value. answer ≡ Ok value) }
        ensures failed { OnErr result (IsErr answer) }
        ensures counts { self.new ≡ after_emit (is_err result) self.old }
        ensures few { self.old.emits ≤ 2 ^ 64 - 1 }
        ensures later { self.old.out_faults ≤ self.new.out_faults }
    {
        match answer {
            Ok(value) => {
                self.count_emit(false);
                Ok(value)
            }
            Err(_) => {
                self.count_emit(true);
                Err(Failed)
            }
        }
    }
}
