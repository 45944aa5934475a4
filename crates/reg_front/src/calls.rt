//! The calls of a device that fails at one of them.

ghost use Rattle.std.specs.Prelude.{◌≡◌, ◌≢◌, ◌<◌, ◌+◌, ◌-◌, ◌^◌, OnErr, OnOk};

use crate::stream::CallFailed;

// How many bytes each call may move, which call from here on fails (1 is the next one, 0 none), and how many have
// failed.
#[derive(Drop)]
pub(crate) struct Calls {
    pub(crate) most: usize,
    pub(crate) until_failure: usize,
    pub(crate) failures: u64,
    pub ghost moves: { 0 < most },
}

impl Calls {
    // Counts one more call, which fails if it is the one that has to.
    pub(crate) fn begin(&mut self) -> Result<(), CallFailed>
        requires { self.old.failures < 2 ^ 64 - 1 }
        ensures most { self.new.most ≡ self.old.most }
        ensures counted { self.new.until_failure ≡ self.old.until_failure - 1 }
        ensures due { OnErr result (self.old.until_failure ≡ 1) }
        ensures not_due { OnOk result (self.old.until_failure ≢ 1) }
        ensures good { OnOk result (self.new.failures ≡ self.old.failures) }
        ensures failed { OnErr result (self.new.failures ≡ self.old.failures + 1) }
    {
        if self.until_failure == 0 {
            return Ok(());
        }
        self.until_failure -= 1;
        if self.until_failure == 0 {
            return Err(self.fail());
        }
        Ok(())
    }

    // Counts a failed call.
    pub(crate) fn fail(&mut self) -> CallFailed
        requires { self.old.failures < 2 ^ 64 - 1 }
        ensures most { self.new.most ≡ self.old.most }
        ensures until_failure { self.new.until_failure ≡ self.old.until_failure }
        ensures failures { self.new.failures ≡ self.old.failures + 1 }
    {
        self.failures += 1;
        CallFailed
    }
}
