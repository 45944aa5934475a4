//! A use of `reg_plan`.

ghost use Rattle.std.specs.Prelude.{◌↔◌, IsTrue, IfOk};
ghost use Rattle.reg_plan.specs.Arrows.{IsArrow};
ghost use Rattle.reg_plan.specs.declared.arrow.Arrow.{Arrow};

use reg_base::{Batch, Directory, NoMemory};
use reg_plan::Plan;
use std::alloc::Global;

/// Whether no instruction of a batch has to wait for another one, since no two of them touch the same account.
///
/// # Errors
/// `NoMemory` if memory ran out.
pub fn needs_no_order(alloc: Global, batch: &Batch, directory: &Directory) -> Result<bool, NoMemory>
    ensures { IfOk result (λ free. IsTrue free
        ↔ ((arrow : Arrow) → ¬ IsArrow directory.now batch.now.instructions arrow)) }
{
    let plan = Plan::of(alloc, batch, directory)?;
    Ok(plan.arrows().is_empty())
}
