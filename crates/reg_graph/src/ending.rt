//! The settled day of a world in which all instructions are done.

ghost use Rattle.std.specs.Prelude.{◌≡◌, ◌≤◌, true, false, [], length, IfOk, MatchResult, vec_capacity};
ghost use Rattle.reg_book.specs.Settled.{IsOfBook};
ghost use Rattle.reg_book.specs.Day.{settled_day};
ghost use Rattle.reg_tasks.specs.Contexts.{the_day};
ghost use Rattle.reg_schedules.specs.World.{known_of, is_over};
ghost use Rattle.reg_schedules.specs.Schedules.{IsWorldSettled};
ghost use Rattle.reg_graph.specs.WorldParts.{world_of};

use crate::world::World;
use crate::world_parts::Parts;
use reg_book::Settled;
use reg_rules::LogRow;
use reg_schedules::laws::every_schedule;
use reg_tasks::Naming;

// Moves the rows that are there to an empty log, in their order.
fn move_rows(rows: Vec<Option<LogRow>>, mut log: Vec<LogRow>) -> Vec<LogRow>
    requires empty { log.items ≡ [] }
    requires room { length rows.items ≤ vec_capacity log }
    ensures { result.items ≡ known_of rows.items }
{
    for row in rows {
        if let Some(row) = row {
            log.push_reserved(row);
        }
    }
    log
}

impl<'c, 'a, N: Naming> World<'c, 'a, N> {
    // What is known of a world that is over. This method does nothing.
    fn is_settled(&self)
        requires over { is_over (world_of self.now.parts) ≡ true }
        ensures { IsWorldSettled (the_day self.now.context.now) (world_of self.now.parts) }
    {
        every_schedule();
    }

    /// The settled day. Takes no memory.
    ///
    /// # Errors
    /// The world as it was, if not all instructions are done.
    pub fn into_settled(self) -> Result<Settled, World<'c, 'a, N>>
        ensures answer { MatchResult result
            (λ s. (is_over (world_of self.entry.parts) ≡ true) × (s ≡ settled_day (the_day self.entry.context.now)))
            (λ w. (is_over (world_of self.entry.parts) ≡ false) × (w ≡ self.entry)) }
        ensures of_book { IfOk result (λ s. IsOfBook self.entry.context.now.book.now s) }
    {
        if !self.is_over() {
            return Err(self);
        }
        self.is_settled();
        let World { context, parts, .. } = self;
        let Parts {
            rows,
            closing,
            log,
            ..
        } = parts;
        Ok(context.settle_day(move_rows(rows, log), closing))
    }
}
