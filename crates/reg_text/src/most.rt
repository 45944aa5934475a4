//! How long a report is at most. The law is the contract of a function that does nothing.

ghost use Rattle.reg_text.specs.Most.{NoReportIsLonger};

use reg_base::laws::each_footprint_is_sound;
use reg_book::{closing_is_a_book, settled_is_closing, stays_ready};
use reg_rules::step_laws;

/// A report is at most eight times as long as its day text, whatever its spelling is. Each row of the log comes of an
/// instruction of the text, with the row that it may add to an account, and each other row of an account comes of a row
/// of the text. What grows most is a distribution: a share may take four bytes in the text, and adds to the log what an
/// account then holds, in up to 44.
pub fn no_report_is_longer()
    ensures { NoReportIsLonger }
{
    step_laws();
    each_footprint_is_sound();
    stays_ready();
    settled_is_closing();
    closing_is_a_book();
}
