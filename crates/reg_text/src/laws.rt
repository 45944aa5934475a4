//! Laws of day texts. They hold for the definitions that the readers implement. Each law is the contract of a
//! function that does nothing.

ghost use Rattle.std.specs.Prelude.{◌≡◌, ◌≢◌, ◌↔◌, ◌+◌, ◌<◌, ◌≤◌, ◌^◌, ℕ, ℤ, pos, List, Ok, Err, length, Bool};
ghost use Rattle.reg_base.specs.declared.limits.TheConstants.{FIRST_DAY, LAST_DAY};
ghost use Rattle.reg_base.specs.declared.kinds.AccountKind.{AccountKind};
ghost use Rattle.reg_base.specs.declared.kinds.AllowanceKind.{AllowanceKind};
ghost use Rattle.reg_base.specs.declared.kinds.Right.{Right};
ghost use Rattle.reg_base.specs.declared.kinds.Retirement.{Retirement};
ghost use Rattle.reg_base.specs.declared.kinds.Status.{Status};
ghost use Rattle.reg_base.specs.declared.act.Act.{Act};
ghost use Rattle.reg_base.specs.Numbers.{IsDayNo};
ghost use Rattle.reg_base.specs.Words.{account_kind_name, allowance_kind_name, name_of_act, retirement_name};
ghost use Rattle.reg_base.specs.Words.{right_name, status_name};
ghost use Rattle.reg_account.specs.Account.{CorrectionFits};
ghost use Rattle.reg_account.specs.Years.{FigureFits};
ghost use Rattle.reg_text.specs.declared.cause.Cause.{Cause};
ghost use Rattle.reg_text.specs.declared.cause.Cause.TheVariants as cause;
ghost use Rattle.reg_text.specs.Causes.{cause_name};
ghost use Rattle.reg_text.specs.CauseNames.{cause_of};
ghost use Rattle.reg_text.specs.SingleRows.{OneRowOfAnInstruction};
ghost use Rattle.reg_text.specs.Numbers.{number, plain_number_of};
ghost use Rattle.reg_text.specs.Signed.{signed, signed_correction_of, signed_figure_of};
ghost use Rattle.reg_text.specs.Dates.{date, date_of};
ghost use Rattle.reg_text.specs.Limits.{bounded_of};
ghost use Rattle.reg_text.specs.declared.reading.tag.Tag.{Tag};
ghost use Rattle.reg_text.specs.declared.reading.scope.Version.{Version};
ghost use Rattle.reg_text.specs.declared.reading.instruction_row.ActName.{ActName};
ghost use Rattle.reg_text.specs.Scopes.{version_word, version_of};
ghost use Rattle.reg_text.specs.Grammar.{tag_word};
ghost use Rattle.reg_text.specs.Tags.{all_tags};
ghost use Rattle.reg_text.specs.Acts.{act_name, act_name_of, act_word};
ghost use Rattle.reg_text.specs.Codecs.{later_factor};
ghost use Rattle.reg_text.specs.Words.{named, kind_of, account_kind_of};
ghost use Rattle.reg_text.specs.Words.{status_of, right_of, retirement_named, yes_no_word};
ghost use Rattle.reg_text.specs.Words.{yes_no_of};
ghost use Rattle.reg_text.specs.TextRows.{TextRow};
ghost use Rattle.reg_book.specs.Day.{DayValue};
ghost use Rattle.reg_text.specs.Reading.{IsReading, IsFirstFaulty};
ghost use Rattle.reg_text.specs.Drafts.{DraftValue};
ghost use Rattle.reg_text.specs.Joining.{PartsJoin};
ghost use Rattle.reg_text.specs.Faults.{day_of_rows, next_draft};
ghost use Rattle.reg_text.specs.Table.{tests_of, IsCauseOf};
ghost use Rattle.reg_text.specs.FieldFaults.{IsNumberText, IsSignedText, IsDateText, TellsFromLimit};
ghost use Rattle.reg_text.specs.FieldTests.{fault_of, first_cause};

/// A field is read as a number exactly if it is the one spelling of that number and the number is below 2^64.
pub fn one_spelling_of_a_number()
    ensures { (f : List ℕ) (n : ℕ) → (plain_number_of f ≡ Ok n) ↔ ((f ≡ number n) × (n < 2 ^ 64)) }
{}

/// A field is read as a correction factor exactly if it is the one spelling of that number and the number is within
/// the limits of a correction factor. The factor of a period after the first is not 0 either.
pub fn one_spelling_of_a_correction()
    ensures first { (f : List ℕ) (z : ℤ) → (signed_correction_of f ≡ Ok z) ↔ ((f ≡ signed z) × CorrectionFits z) }
    ensures later { (f : List ℕ) (z : ℤ)
        → (later_factor.read f ≡ Ok z) ↔ ((f ≡ signed z) × CorrectionFits z × (z ≢ pos 0)) }
{}

/// A field is read as a determined figure exactly if it is the one spelling of that number and the number is within
/// the limits of a determined figure.
pub fn one_spelling_of_a_figure()
    ensures { (f : List ℕ) (z : ℤ) → (signed_figure_of f ≡ Ok z) ↔ ((f ≡ signed z) × FigureFits z) }
{}

/// A field is read as a day exactly if it is the date of that day and the day is within the limits.
pub fn one_spelling_of_a_day()
    ensures { (f : List ℕ) (n : ℕ) → (date_of f ≡ Ok n) ↔ ((f ≡ date n) × IsDayNo n) }
{}

/// A field is read as a number within limits exactly if it is the one spelling of that number and the number is
/// within these limits.
pub fn one_spelling_within_limits()
    ensures { (low high : ℕ) (f : List ℕ) (n : ℕ) → high < 2 ^ 64
        → (bounded_of low high f ≡ Ok n) ↔ ((f ≡ number n) × (low ≤ n) × (n ≤ high)) }
{}

/// A field is read as a kind, an account kind, a status, a right, what became of allowances, yes or no, a tag, an act
/// or a version exactly if it is the word of that value.
pub fn one_word_of_each_value()
    ensures kinds { (f : List ℕ) (k : AllowanceKind) → (kind_of f ≡ Ok k) ↔ (f ≡ allowance_kind_name k) }
    ensures account_kinds { (f : List ℕ) (k : AccountKind) → (account_kind_of f ≡ Ok k) ↔ (f ≡ account_kind_name k) }
    ensures statuses { (f : List ℕ) (s : Status) → (status_of f ≡ Ok s) ↔ (f ≡ status_name s) }
    ensures rights { (f : List ℕ) (r : Right) → (right_of f ≡ Ok r) ↔ (f ≡ right_name r) }
    ensures retirements { (f : List ℕ) (w : Retirement) → (retirement_named f ≡ Ok w) ↔ (f ≡ retirement_name w) }
    ensures yes_or_no { (f : List ℕ) (b : Bool) → (yes_no_of f ≡ Ok b) ↔ (f ≡ yes_no_word b) }
    ensures tags { (f : List ℕ) (t : Tag) → (named cause.Tag tag_word all_tags f ≡ Ok t) ↔ (f ≡ tag_word t) }
    ensures acts { (f : List ℕ) (n : ActName) → (act_name_of f ≡ Ok n) ↔ (f ≡ act_word n) }
    ensures versions { (f : List ℕ) (v : Version) → (version_of f ≡ Ok v) ↔ (f ≡ version_word v) }
{}

/// The word of an act in the texts is its name in reg_base. (Kinds, account kinds, statuses, rights and what became of
/// allowances have theirs in reg_base by definition.)
pub fn words_are_those_of_values()
    ensures acts { (a : Act) → act_word (act_name a) ≡ name_of_act a }
{}

/// A text names a cause exactly if it is the name of that cause.
pub fn one_name_of_each_cause()
    ensures { (f : List ℕ) (c : Cause) → (cause_of f ≡ Ok c) ↔ (f ≡ cause_name c) }
{}

/// Rows are read as an instruction exactly if they are the one row that spells it, and the instruction is within the
/// limits of a day: each number in it is within its range, and a distribution has one share to eight.
pub fn one_row_of_an_instruction()
    ensures { OneRowOfAnInstruction }
{}

/// Rows are read as a day exactly if they are the spelling of that day in a version that can say it, and the day is
/// within the limits.
pub fn reads_what_is_spelled()
    ensures { (rows : List TextRow) (v : DayValue) → (day_of_rows rows ≡ Ok v) ↔ IsReading rows v }
{}

/// Rows spell at most one day.
pub fn at_most_one_reading()
    ensures { (rows : List TextRow) (v w : DayValue) → IsReading rows v → IsReading rows w → v ≡ w }
{}

/// A fault names the first row such that no day text begins with the rows up to it. If a day text begins with all the
/// rows, but they are not a whole one, the fault names the number of rows plus 1, and the cause is `end`.
pub fn names_the_first_faulty_row()
    ensures first { (rows : List TextRow) (row : ℕ) (c : Cause) → day_of_rows rows ≡ Err (row, c)
        → IsFirstFaulty rows row }
    ensures end { (rows : List TextRow) (row : ℕ) (c : Cause) → day_of_rows rows ≡ Err (row, c) → row ≡ length rows + 1
        → c ≡ cause.End }
{}

/// If a fault names one of the rows of a text, the rows before it make a draft, and the cause is the first of the table
/// of causes that applies to that draft and that row. After any draft, a row to which no cause applies is taken.
pub fn names_the_first_cause()
    ensures of_text { (rows : List TextRow) (row : ℕ) (c : Cause) → day_of_rows rows ≡ Err (row, c) → row ≤ length rows
        → IsCauseOf rows row c }
    ensures of_row { (d : DraftValue) (r : TextRow) → fault_of (next_draft d r) ≡ first_cause (tests_of d r) }
{}

/// A field that is refused is no number, no signed number or no date at all, or it is one and outside the limits, and
/// the cause says which. For the factor of a period after the first, 0 is outside the limits.
pub fn tells_other_texts_from_limits()
    ensures numbers { (low high : ℕ) → TellsFromLimit (bounded_of low high) cause.Number IsNumberText }
    ensures corrections { TellsFromLimit signed_correction_of cause.Number IsSignedText }
    ensures later_corrections { TellsFromLimit later_factor.read cause.Number IsSignedText }
    ensures figures { TellsFromLimit signed_figure_of cause.Number IsSignedText }
    ensures dates { TellsFromLimit date_of cause.Date IsDateText }
{}

/// If a part of a text was read on its own behind the heading, and may stand behind the rows before it, then all these
/// rows say what the rows before it and the part say, joined.
pub fn parts_join()
    ensures { PartsJoin }
{}
