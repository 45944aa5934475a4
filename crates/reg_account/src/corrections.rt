//! Correction factors of later periods, by rising period.

ghost use Rattle.std.specs.Prelude.{◌≡◌, ◌==◌, find};
ghost use Rattle.reg_account.specs.Corrections.{factor_in};

/// The correction factor that was given for a period after the first.
#[derive(Clone, Copy, Debug, PartialEq, Eq)]
pub struct Correction {
    /// The number of the period, 2 to 8.
    pub period: u8,
    /// The factor, -10^15 to 10^15 tonnes of carbon dioxide equivalent, and not 0.
    pub factor: i64,
}

/// The factor of this period in tonnes, 0 if the list has none for it.
pub(crate) fn find_factor(corrections: &[Correction], period: u8) -> i64
    ensures { result ≡ factor_in corrections.now period }
{
    match find_correction(corrections, period) {
        Some(correction) => factor_of(correction),
        None => 0,
    }
}

// The list has at most seven factors, and for most accounts none, so it is walked through.
fn find_correction(corrections: &[Correction], period: u8) -> Option<Correction>
    ensures { result ≡ find (λ c. c.period == period) corrections.now }
{
    corrections
        .iter()
        .copied()
        .find(|correction| is_of(correction, period))
}

fn is_of(correction: &Correction, period: u8) -> bool
    ensures { result ≡ (correction.now.period == period) }
{
    correction.period == period
}

fn factor_of(correction: Correction) -> i64
    ensures { result ≡ correction.factor }
{
    correction.factor
}
