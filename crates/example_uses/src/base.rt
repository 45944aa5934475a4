//! A use of `reg_base`.

ghost use Rattle.std.specs.Prelude.{◌≡◌, ℕ, MatchResult};
ghost use Rattle.reg_base.specs.Rising.{FirstNotRising};
ghost use Rattle.reg_base.specs.Calendar.{IsCalendar, due};
ghost use Rattle.reg_base.specs.declared.calendar.CalendarFault.TheVariants.{NotRising};

use reg_base::{Calendar, CalendarFault, Day};

/// The date on which an instruction falls due that was proposed on `proposed`: the (`lag` + 1)th of these working
/// days on or after `proposed`, if there are so many.
///
/// # Errors
/// `NotRising` if the days are no calendar.
pub fn due_day(days: Vec<Day>, proposed: Day, lag: u16) -> Result<Option<Day>, CalendarFault>
    ensures { MatchResult result
        (λ day. (day ≡ due days.items proposed lag) × IsCalendar days.items)
        (λ fault. (place : ℕ) × (fault ≡ NotRising place) × FirstNotRising days.items place) }
{
    let calendar = Calendar::new(days)?;
    Ok(calendar.due(proposed, lag))
}
