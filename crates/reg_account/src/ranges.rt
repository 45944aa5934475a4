//! What the types of a list's numbers say of them: each record number, date and year is within its range.

ghost use Rattle.std.specs.Prelude.{All};
ghost use Rattle.reg_account.specs.Rows.{RowIsInRange};
ghost use Rattle.reg_account.specs.Years.{EmissionIsInRange, FigureIsInRange};

use crate::rows::RetirementRow;
use crate::years::{Emission, Figure};

// These functions read numbers, so that a proof knows their ranges. They have no effect when the program runs.

pub(crate) fn know_rows(rows: &[RetirementRow])
    ensures { All RowIsInRange rows.now }
{
    for row in rows {
        know_row(row);
    }
}

pub(crate) fn know_row(row: &RetirementRow)
    ensures { RowIsInRange row.now }
{
    row.number.get();
    row.day.get();
}

pub(crate) fn know_emissions(emissions: &[Emission])
    ensures { All EmissionIsInRange emissions.now }
{
    for emission in emissions {
        know_emission(emission);
    }
}

fn know_emission(emission: &Emission)
    ensures { EmissionIsInRange emission.now }
{
    emission.year.get();
}

pub(crate) fn know_figures(figures: &[Figure])
    ensures { All FigureIsInRange figures.now }
{
    for figure in figures {
        know_figure(figure);
    }
}

fn know_figure(figure: &Figure)
    ensures { FigureIsInRange figure.now }
{
    figure.year.get();
}
