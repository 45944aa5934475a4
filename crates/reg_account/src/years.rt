//! What an account has for single years: its emissions and its determined figures, by rising year.

ghost use Rattle.std.specs.Prelude.{◌≡◌, OnOk, OnErr};
ghost use Rattle.reg_base.specs.Rising.{IsRising};
ghost use Rattle.reg_account.specs.Years.{emission_years, figure_years, emissions_in, figure_in, with_emission};
ghost use Rattle.reg_account.specs.Years.{with_figure};

use reg_base::{NoMemory, Year};

/// The verified emissions of a year.
#[derive(Clone, Copy, Debug, PartialEq, Eq)]
pub struct Emission {
    /// The year.
    pub year: Year,
    /// The emissions, 0 to 10^12 tonnes of carbon dioxide equivalent.
    pub tonnes: u64,
}

/// The compliance status figure that was determined for a year.
#[derive(Clone, Copy, Debug, PartialEq, Eq)]
pub struct Figure {
    /// The year.
    pub year: Year,
    /// The figure, -4 x 10^15 to 4 x 10^15 tonnes of carbon dioxide equivalent.
    pub tonnes: i64,
}

/// The emissions of this year.
pub(crate) fn find_emissions(emissions: &[Emission], year: Year) -> Option<u64>
    requires { IsRising (emission_years emissions.now) }
    ensures { result ≡ emissions_in emissions.now year }
{
    match emissions.binary_search_by_key(&year, |emission| emission.year) {
        Ok(index) => Some(emissions[index].tonnes),
        Err(_) => None,
    }
}

/// The determined figure of this year.
pub(crate) fn find_figure(figures: &[Figure], year: Year) -> Option<i64>
    requires { IsRising (figure_years figures.now) }
    ensures { result ≡ figure_in figures.now year }
{
    match figures.binary_search_by_key(&year, |figure| figure.year) {
        Ok(index) => Some(tonnes_of(figures[index])),
        Err(_) => None,
    }
}

fn tonnes_of(figure: Figure) -> i64
    ensures { result ≡ figure.tonnes }
{
    figure.tonnes
}

/// Puts these emissions where they belong by year. Earlier ones of that year are replaced.
///
/// # Errors
/// `NoMemory` if memory ran out. The emissions are unchanged.
pub(crate) fn put_emission(emissions: &mut Vec<Emission>, new: Emission) -> Result<(), NoMemory>
    requires { IsRising (emission_years emissions.old.items) }
    ensures ok { OnOk result (emissions.new.items ≡ with_emission new emissions.old.items) }
    ensures err { OnErr result (emissions.new.items ≡ emissions.old.items) }
{
    match emissions.binary_search_by_key(&new.year, |emission| emission.year) {
        Ok(index) => emissions[index] = new,
        Err(index) => emissions.insert(index, new)?,
    }
    Ok(())
}

/// Puts this determined figure where it belongs by year. An earlier one of that year is replaced.
///
/// # Errors
/// `NoMemory` if memory ran out. The figures are unchanged.
pub(crate) fn put_figure(figures: &mut Vec<Figure>, new: Figure) -> Result<(), NoMemory>
    requires { IsRising (figure_years figures.old.items) }
    ensures ok { OnOk result (figures.new.items ≡ with_figure new figures.old.items) }
    ensures err { OnErr result (figures.new.items ≡ figures.old.items) }
{
    match figures.binary_search_by_key(&new.year, |figure| figure.year) {
        Ok(index) => figures[index] = new,
        Err(index) => figures.insert(index, new)?,
    }
    Ok(())
}
