//! The laws of the rows of a text, and of cut texts.

ghost use Rattle.reg_cuts.specs.Rows.{EachTextHasFewRows};
ghost use Rattle.reg_cuts.specs.Parts.{EachCutSplits, CutsGoOn, LinesWithoutQuotesAreCuts, EachSplitSplits};

/// A text has at most one row more than it has bytes.
pub fn each_text_has_few_rows()
    ensures { EachTextHasFewRows }
{}

/// If bytes lead the machine of csv from between two rows to between two rows again, then the rows of these bytes and a
/// rest are those of the bytes, and behind them those of the rest read alone.
pub fn each_split_splits()
    ensures { EachSplitSplits }
{}

/// The same of whole texts: if a text may be cut behind its first part, its rows are those of this part and of the rest
/// read alone, unless the rest begins with a byte order mark. (A mark is skipped at the very start of a text alone.)
pub fn each_cut_splits()
    ensures { EachCutSplits }
{}

/// If a text may be cut behind each of two parts, and the second one does not begin with a byte order mark, a text may
/// be cut behind both together.
pub fn cuts_go_on()
    ensures { CutsGoOn }
{}

/// A text may be cut behind lines without a quote, the last of which ends with a line feed.
pub fn lines_without_quotes_are_cuts()
    ensures { LinesWithoutQuotesAreCuts }
{}
