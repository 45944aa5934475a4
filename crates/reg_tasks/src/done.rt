//! What is kept of instructions that were run.

ghost use Rattle.std.specs.Prelude.{◌≡◌};
ghost use Rattle.reg_tasks.specs.Names.{IsRowOfDay, IsReplyOfDay};

use crate::naming::Naming;
use reg_rules::{LogRow, Reply};
use std::marker::PhantomData;

/// An instruction that was run: its place, and the reply to it. The rest of its row in the log is in the batch. If a
/// day is named, it is the day's reply at that place. Callers get one only by
/// [`TaskOutcome::into_done`](crate::TaskOutcome::into_done) and [`Slots::lay`](crate::Slots::lay), each for the
/// outcome that it takes. In this crate [`run_order`](crate::run_order) makes one of each row of its own, and
/// [`Context::gather`](crate::Context::gather) one of each row that it gets, which must be the day's.
#[derive(Drop)]
pub struct Done<N: Naming> {
    place: u32,
    reply: Reply,
    of: PhantomData<N>,
    pub ghost right: { IsReplyOfDay N.day place reply },
}

impl<N: Naming> Done<N> {
    // What is kept of a row in the log: the rest of it is in the batch.
    pub(crate) fn new(place: u32, row: LogRow) -> Done<N>
        requires { IsRowOfDay N.day place row }
        ensures place { result.place ≡ place }
        ensures reply { result.reply ≡ row.reply }
    {
        Done {
            place,
            reply: row.reply,
            of: PhantomData,
        }
    }

    /// The place of the instruction, counted from 1.
    pub fn place(&self) -> u32
        ensures { result ≡ self.now.place }
    {
        self.place
    }

    // The reply, without the place.
    pub(crate) fn into_reply(self) -> Reply
        ensures { result ≡ self.reply }
    {
        self.reply
    }
}
