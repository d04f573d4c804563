//! What a reader tells of its calls.

ghost use Rattle.std.specs.Prelude.{◌≡◌, ◌≢◌, ◌+◌, ◌≤◌, ◌<◌, false, true, OnOk, OnErr};
ghost use Rattle.ps_model.specs.declared.limits.TheConstants.{CALL_LIMIT};
ghost use Rattle.ps_devices.specs.Devices.{most_calls};

use ps_devices::Failed;
use ps_model::CALL_LIMIT;

/// What is counted of a reader's calls. It has whether one has failed, how many bytes the last one gave, and how many
/// calls there were. It has how many of them gave nothing without failing, and how many had room for another number of
/// bytes than `CALL_LIMIT`.
#[derive(Drop)]
pub struct Counts {
    pub failed: bool,
    pub last: usize,
    pub calls: u64,
    pub empty_calls: u64,
    pub odd_sized_calls: u64,
    ghost empty: { empty_calls ≤ calls },
    ghost odd_sized: { odd_sized_calls ≤ calls },
}

impl Counts {
    /// Before the first call.
    pub fn new() -> Counts
        ensures failed { result.failed ≡ false }
        ensures last { result.last ≡ 0 }
        ensures calls { result.calls ≡ 0 }
        ensures empty_calls { result.empty_calls ≡ 0 }
        ensures odd_sized_calls { result.odd_sized_calls ≡ 0 }
    {
        Counts {
            failed: false,
            last: 0,
            calls: 0,
            empty_calls: 0,
            odd_sized_calls: 0,
        }
    }

    /// Counts one more call, with room for `room` bytes. It fails where the count can't grow.
    pub fn begin(&mut self, room: usize) -> Result<(), Failed>
        ensures last { self.new.last ≡ 0 }
        ensures well { OnOk result (self.new.failed ≡ self.old.failed) }
        ensures told { OnErr result (self.new.failed ≡ true) }
        ensures counted { OnOk result (self.new.calls ≡ self.old.calls + 1) }
        ensures room { OnOk result (self.old.calls < most_calls) }
        ensures worn { OnErr result (most_calls ≤ self.old.calls) }
        ensures held { OnErr result (self.new.calls ≡ self.old.calls) }
        ensures empty { self.new.empty_calls ≡ self.old.empty_calls }
        ensures odd_sized { OnOk result (room ≢ CALL_LIMIT → self.new.odd_sized_calls ≡ self.old.odd_sized_calls + 1) }
        ensures even_sized { OnOk result (room ≡ CALL_LIMIT → self.new.odd_sized_calls ≡ self.old.odd_sized_calls) }
        ensures uncounted { OnErr result (self.new.odd_sized_calls ≡ self.old.odd_sized_calls) }
    {
        self.last = 0;
        if self.calls == u64::MAX {
            self.failed = true;
            return Err(Failed);
        }
        self.calls += 1;
        if room != CALL_LIMIT {
            self.odd_sized_calls += 1;
        }
        Ok(())
    }

    /// The call that is counted has given `count` bytes.
    pub fn gave(&mut self, count: usize)
        requires { self.old.empty_calls < self.old.calls }
        ensures last { self.new.last ≡ count }
        ensures failed { self.new.failed ≡ self.old.failed }
        ensures calls { self.new.calls ≡ self.old.calls }
        ensures empty { count ≡ 0 → self.new.empty_calls ≡ self.old.empty_calls + 1 }
        ensures some { 0 < count → self.new.empty_calls ≡ self.old.empty_calls }
        ensures odd_sized { self.new.odd_sized_calls ≡ self.old.odd_sized_calls }
    {
        self.last = count;
        if count == 0 {
            self.empty_calls += 1;
        }
    }

    /// The call that is counted has failed.
    pub fn fail(&mut self)
        ensures last { self.new.last ≡ self.old.last }
        ensures failed { self.new.failed ≡ true }
        ensures calls { self.new.calls ≡ self.old.calls }
        ensures empty { self.new.empty_calls ≡ self.old.empty_calls }
        ensures odd_sized { self.new.odd_sized_calls ≡ self.old.odd_sized_calls }
    {
        self.failed = true;
    }
}
