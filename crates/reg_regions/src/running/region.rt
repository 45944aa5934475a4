//! A region as it lies in a deque, and how lists become regions.

ghost use Rattle.std.specs.Prelude.{◌≡◌, ◌≤◌, ◌-◌, ◌<◌, ◌^◌, Some, length, map, slice_get, vec_len, IfOk};
ghost use Rattle.reg_base.specs.Rising.{count_up};
ghost use Rattle.reg_regions.specs.Stealing.{region_opening, region_openings};

use reg_account::Account;
use reg_advice::Deal;
use reg_base::NoMemory;
use reg_deques::Numbered;
use std::alloc::Global;
use std::marker::{Brand, PhantomData};

/// What the regions of a call begin with and have to do. It has no code. What lies in a deque is known by its type
/// alone, so its type names them.
pub(crate) trait Cutting {
    ghost use Rattle.std.specs.Prelude.{List};
    ghost use Rattle.reg_rules.specs.State.{State};
    ghost use Rattle.reg_advice.specs.declared.dealing.Deal.{Deal};

    ghost openings: { List State };

    ghost deals: { List Deal };
}

/// Those that a caller picks from its own arguments.
impl Cutting for Brand {
    ghost use Rattle.std.specs.Prelude.{[]};

    ghost openings = { [] };

    ghost deals = { [] };
}

/// A list of accounts that is a region, as it was when the lists were dealt out, with what it has to do.
#[derive(Drop)]
pub(crate) struct ListRegion<C: Cutting> {
    /// Its number, counted from 1.
    pub(crate) number: u32,
    pub(crate) deal: Deal,
    pub(crate) accounts: Vec<Account>,
    pub(crate) of: PhantomData<C>,
    pub(crate) ghost within: { (1 ≤ number) × (number ≤ length C.openings) },
    pub(crate) ghost opening: { accounts.items ≡ region_opening C.openings number },
    pub(crate) ghost dealt: { slice_get C.deals (number - 1) ≡ Some deal },
}

impl<C: Cutting> Numbered for ListRegion<C> {
    ghost number = { λ r. r.number };
}

/// The lists as regions, each with what it has to do, and with the numbers from 1 on.
///
/// # Errors
/// `NoMemory` if memory ran out.
pub(crate) fn make_regions<C: Cutting>(
    alloc: Global,
    deals: Vec<Deal>,
    lists: Vec<Vec<Account>>,
) -> Result<Vec<ListRegion<C>>, NoMemory>
    requires openings { C.openings ≡ region_openings lists.items }
    requires deals { C.deals ≡ deals.items }
    requires few { vec_len lists < 2 ^ 32 }
    requires one_each { vec_len deals ≡ vec_len lists }
    ensures { IfOk result (λ regions. map (λ r. r.number) regions.items ≡ count_up 1 (vec_len lists)) }
{
    let mut regions = Vec::with_capacity(alloc, lists.len())?;
    let mut number: u32 = 0;
    let mut deals = deals.into_iter();
    for accounts in lists {
        let deal = deals.next().unwrap();
        number += 1;
        regions.push(ListRegion {
            number,
            deal,
            accounts,
            of: PhantomData,
        })?;
    }
    Ok(regions)
}
