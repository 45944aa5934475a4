//! How much room a report needs at most.

ghost use Rattle.std.specs.Prelude.{◌≡◌};
ghost use Rattle.registry_c.specs.Most.{EachReportHasRoom, room_most};

use reg_text::no_report_is_longer;

// A report is at most so many times as long as its day text.
const MOST_TIMES: usize = 8;

/// A length that is enough for the report of each day text of this length, or the largest one that there is.
pub(crate) fn room_for_report(day_length: usize) -> usize
    ensures { result ≡ room_most day_length }
{
    MOST_TIMES.saturating_mul(day_length)
}

/// A room of [`registry_report_most`](crate::registry_report_most) bytes or more has space for the whole report,
/// whatever the day text is. So one call of [`registry_settle`](crate::registry_settle) is enough.
pub fn each_report_has_room()
    ensures { EachReportHasRoom }
{
    no_report_is_longer();
}
