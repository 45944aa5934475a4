//! Dividing work among workers.

ghost use Rattle.std.specs.Prelude.{◌≡◌, ◌≤◌, ◌<◌, ◌+◌, ◌-◌, ◌^◌, length, map, vec_len, IfOk};
ghost use Rattle.reg_facts.specs.Lists.{joined_lists};
ghost use Rattle.reg_work.specs.Parts.{AreEven};

use reg_base::NoMemory;
use std::alloc::Global;

// The size of the part with this number, counted from 0: the first ones are larger by one than the others.
fn size_of(index: usize, least: usize, larger: usize) -> usize
    requires { least < 2 ^ 63 }
    ensures even { (least ≤ result) × (result ≤ least + 1) }
    ensures left { result + (larger - (index + 1)) ≡ least + (larger - index) }
{
    if index < larger { least + 1 } else { least }
}

/// Divides items in their order into so many parts, whose sizes differ by at most one.
///
/// # Errors
/// `NoMemory` if memory ran out.
pub(crate) fn divide<T: Drop>(
    alloc: Global,
    items: Vec<T>,
    count: usize,
) -> Result<Vec<Vec<T>>, NoMemory>
    requires { 1 ≤ count }
    ensures number { IfOk result (λ parts. length parts.items ≡ count) }
    ensures whole { IfOk result (λ parts. joined_lists parts.items ≡ items.items) }
    ensures even { IfOk result (λ parts. AreEven (map vec_len parts.items)) }
{
    let least = items.len() / count;
    let larger = items.len() % count;
    let mut parts = Vec::with_capacity(alloc, count)?;
    let mut rest = items;
    for index in 0..count {
        let after = rest.split_off(size_of(index, least, larger))?;
        parts.push(rest)?;
        rest = after;
    }
    Ok(parts)
}
