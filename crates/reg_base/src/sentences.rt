//! Why an instruction is refused, in a sentence for people.

ghost use Rattle.std.specs.Prelude.{◌≡◌};
ghost use Rattle.reg_base.specs.Sentences.{refusal_sentence};

use crate::refusals::Refusal;

impl Refusal {
    /// Why the instruction was refused, in one English sentence with its full stop. It names no account and no amount.
    pub fn sentence(self) -> &'static str
        ensures { result.now ≡ refusal_sentence self }
    {
        match self {
            Refusal::UnknownAccount =>
                "There is no account with a number that the instruction names.",
            Refusal::SameAccount => "The instruction names one account twice.",
            Refusal::WrongAccountKind => "The act does not exist for accounts of these kinds.",
            Refusal::SourceStatus =>
                "The source account, or the account to be changed, does not have the status that the act needs.",
            Refusal::DestinationStatus => "An account that receives is closed.",
            Refusal::NotProposer => "The proposer may not propose this instruction.",
            Refusal::ApprovalMissing =>
                "Nobody approved the instruction, and it needs an approval.",
            Refusal::SameRepresentative => "The approver is the proposer.",
            Refusal::NotApprover => "The approver may not approve this instruction.",
            Refusal::NotTrusted =>
                "The source account does not trust the destination, and allows no transfers outside its list.",
            Refusal::OutsideCalendar =>
                "The calendar has no day on which the instruction falls due, or none on which it takes effect.",
            Refusal::NotDue => "The due day is later than the settlement day.",
            Refusal::KindNotAllowed =>
                "Allowances of this kind may not be surrendered from an account of this kind.",
            Refusal::ZeroAmount => "An amount is 0.",
            Refusal::UnknownTransaction =>
                "The account has no surrender or deletion with this record number.",
            Refusal::AlreadyReversed => "The surrender or deletion was reversed before.",
            Refusal::WindowClosed => "The window for a reversal ended before the settlement day.",
            Refusal::NotEnough =>
                "The source account holds fewer allowances of this kind than the instruction takes from it.",
            Refusal::HoldingTooLarge =>
                "An account that receives would hold more allowances of this kind than its limit.",
            Refusal::RetiredTooLarge =>
                "The account would have surrendered, or deleted, more allowances of this kind than its limit.",
            Refusal::RowsFull =>
                "The account already has the most surrenders and deletions that it may have.",
            Refusal::WouldBecomeNonCompliant =>
                "The latest compliance figure of the period of this surrender would fall below 0.",
            Refusal::AlreadyTrusted => "The account is on the trusted account list already.",
            Refusal::NotOnList => "The account is not on the trusted account list.",
            Refusal::ListFull =>
                "The trusted account list already has the most entries that it may have.",
            Refusal::YearOutsidePeriod => "The year is in no period.",
            Refusal::AmountTooLarge => "The emissions are above their limit.",
            Refusal::EmissionsMissing =>
                "The emissions of this year, or of an earlier year of its period, are missing.",
        }
    }
}
