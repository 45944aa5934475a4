//! Elements of lists that lie one behind the other change places, so that what belongs together stands together, and
//! change back.

ghost use Rattle.std.specs.Prelude.{◌≡◌, ◌<◌, ◌++◌, List, All, length, slice_index_or, slice_set};
ghost use Rattle.std.specs.List.{swap};
ghost use Rattle.reg_regions.specs.Lists.{joined_lists, sizes_of};
ghost use Rattle.reg_regions.specs.Swaps.{IsSwapWithin, exchanged, exchanged_back};

use reg_advice::Swap;
use std::mem;

/// Swaps elements of lists, one pair after another. An index counts through all lists.
pub(crate) fn swap_all<T>(lists: &mut [Vec<T>], swaps: &[Swap])
    requires { All (IsSwapWithin (length (joined_lists lists.old))) swaps.now }
    ensures exchanged { joined_lists lists.new ≡ exchanged swaps.now (joined_lists lists.old) }
    ensures sizes { sizes_of lists.new ≡ sizes_of lists.old }
{
    for swap in swaps {
        swap_two(lists, swap.one as usize, swap.other as usize);
    }
}

/// Swaps them back, from the last pair to the first.
pub(crate) fn swap_back<T>(lists: &mut [Vec<T>], swaps: &[Swap])
    requires { All (IsSwapWithin (length (joined_lists lists.old))) swaps.now }
    ensures exchanged_back { joined_lists lists.new ≡ exchanged_back swaps.now (joined_lists lists.old) }
    ensures sizes { sizes_of lists.new ≡ sizes_of lists.old }
{
    let mut left = swaps.len();
    while left > 0 {
        left -= 1;
        let swap = swaps[left];
        swap_two(lists, swap.one as usize, swap.other as usize);
    }
}

// Swaps two elements, whose indexes count through all lists.
#[cycle(walking)]
fn swap_two<T>(lists: &mut [Vec<T>], one: usize, other: usize)
    requires one { one < length (joined_lists lists.old) }
    requires other { other < length (joined_lists lists.old) }
    ensures joined { joined_lists lists.new ≡ swap (joined_lists lists.old) one other }
    ensures sizes { sizes_of lists.new ≡ sizes_of lists.old }
{
    if let Some((first, later)) = lists.split_first_mut() {
        swap_from(first, later, one, other);
    }
}

// The same of a first list and those behind it.
#[cycle(walking)]
fn swap_from<T>(first: &mut Vec<T>, later: &mut [Vec<T>], one: usize, other: usize)
    requires one { one < length (first.old.items ++ joined_lists later.old) }
    requires other { other < length (first.old.items ++ joined_lists later.old) }
    ensures joined { first.new.items ++ joined_lists later.new
        ≡ swap (first.old.items ++ joined_lists later.old) one other }
    ensures length { length first.new.items ≡ length first.old.items }
    ensures sizes { sizes_of later.new ≡ sizes_of later.old }
{
    let size = first.len();
    if one < size {
        if other < size {
            first.swap(one, other);
        } else {
            exchange(&mut first[one], later, other - size);
        }
    } else if other < size {
        exchange(&mut first[other], later, one - size);
    } else {
        swap_two(later, one - size, other - size);
    }
}

// Swaps an element with one that stands in lists.
fn exchange<T>(item: &mut T, lists: &mut [Vec<T>], index: usize)
    requires { index < length (joined_lists lists.old) }
    ensures item { item.new ≡ slice_index_or (joined_lists lists.old) index item.old }
    ensures joined { joined_lists lists.new ≡ slice_set (joined_lists lists.old) index item.old }
    ensures sizes { sizes_of lists.new ≡ sizes_of lists.old }
{
    if let Some((first, later)) = lists.split_first_mut() {
        let size = first.len();
        if index < size {
            exchange_here(item, first, index);
        } else {
            exchange(item, later, index - size);
        }
    }
}

// Swaps an element with one of a list.
fn exchange_here<T>(item: &mut T, list: &mut Vec<T>, index: usize)
    requires { index < length list.old.items }
    ensures item { item.new ≡ slice_index_or list.old.items index item.old }
    ensures list { list.new.items ≡ slice_set list.old.items index item.old }
{
    mem::swap(item, &mut list[index]);
}
