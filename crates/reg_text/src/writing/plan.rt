//! Writing the text of a plan.

ghost use Rattle.std.specs.Prelude.{◌≡◌, ◌≤◌, ◌++◌, map, length, IfOk, OnOk};
ghost use Rattle.csv.specs.Writing.{default_writer, row_text};
ghost use Rattle.reg_text.specs.Report.{text_of};
ghost use Rattle.reg_text.specs.PlanText.{task_row, arrow_row, place_rows, places_rows, plan_rows};

use crate::writing::report::put_end;
use crate::writing::row::RowText;
use crate::writing::rows::{Rows, put_each, put_numbers};
use crate::writing::text::Text;
use reg_base::NoMemory;
use reg_plan::{Arrow, Plan};
use std::alloc::Global;

// Adds the row of a place and its level.
fn put_task(text: &mut Text, row: &mut RowText, place: u32, level: u32) -> Result<(), NoMemory>
    ensures { OnOk result (text.new ≡ text.old ++ row_text default_writer (task_row place level)) }
{
    put_numbers(text, row, b"task", &[place.into(), level.into()])
}

// Adds the row of an arrow.
fn put_arrow(text: &mut Text, row: &mut RowText, arrow: &Arrow) -> Result<(), NoMemory>
    ensures { OnOk result (text.new ≡ text.old ++ row_text default_writer (arrow_row arrow.now)) }
{
    let numbers = [
        arrow.from.into(),
        arrow.to.into(),
        arrow.account.get().into(),
    ];
    put_numbers(text, row, b"arrow", &numbers)
}

impl Rows for Arrow {
    ghost use Rattle.std.specs.Prelude.{[], ◌∷◌};
    ghost use Rattle.reg_text.specs.PlanText.{arrow_row};

    ghost rows = { λ value. arrow_row value ∷ [] };

    fn put(&self, text: &mut Text, row: &mut RowText) -> Result<(), NoMemory> {
        put_arrow(text, row, self)
    }
}

// Adds the rows of arrows, in order.
#[tactic(auto, using(std::proofs::lemmas::List::Concat::flat_map_single))]
fn put_arrows(text: &mut Text, row: &mut RowText, arrows: &[Arrow]) -> Result<(), NoMemory>
    ensures { OnOk result (text.new ≡ text.old ++ text_of (map arrow_row arrows.now)) }
{
    put_each(text, row, arrows)
}

// Adds a place of the plan and the arrows that lead to it.
fn put_place(text: &mut Text, row: &mut RowText, plan: &Plan, place: u32) -> Result<(), NoMemory>
    requires from_one { 1 ≤ place }
    requires within { place ≤ length plan.now.levels }
    ensures { OnOk result (text.new ≡ text.old ++ text_of (place_rows plan.now place)) }
{
    put_task(text, row, place, plan.levels()[place as usize - 1])?;
    put_arrows(text, row, plan.inward(place))
}

// Adds all places of the plan, in order.
#[tactic(auto, using(crate::proofs::TextFacts::place_loop))]
fn put_places(text: &mut Text, row: &mut RowText, plan: &Plan) -> Result<(), NoMemory>
    ensures { OnOk result (text.new ≡ text.old ++ text_of (places_rows plan.now (length plan.now.levels))) }
{
    for before in 0..plan.len() {
        put_place(text, row, plan, before + 1)?;
    }
    Ok(())
}

/// The text of a plan: for each place its level and the arrows that lead to it, and the row `end`.
///
/// The time is linear in the text.
///
/// # Errors
/// `NoMemory` if memory ran out.
pub fn plan_text(alloc: Global, plan: &Plan) -> Result<Vec<u8>, NoMemory>
    ensures { IfOk result (λ text. text.items ≡ text_of (plan_rows plan.now)) }
{
    let mut text = Text::new(alloc);
    let mut row = RowText::new();
    put_places(&mut text, &mut row, plan)?;
    put_end(&mut text)?;
    Ok(text.into_bytes())
}
