//! Bringing items near to where they belong, so that sorting them takes one pass.

ghost use Rattle.std.specs.Prelude.{IsPermutation};

// Exchanges the item at an index with the one at its likely index, if that one does not belong there. Answers the index
// that is looked at next. Indexes are counted from 0.
fn bring_one<T, F: Fn(&T) -> usize>(items: &mut [T], index_of: &F, at: usize) -> usize
    requires { F.IsAlwaysCallable index_of.now }
    ensures { IsPermutation items.old items.new }
{
    if at >= items.len() {
        return at;
    }
    let index = index_of(&items[at]);
    if index == at || index >= items.len() || index_of(&items[index]) == index {
        return at + 1;
    }
    items.swap(at, index);
    at
}

/// Brings each item to its likely index, counted from 0, if it has one of its own. Nothing is promised of the order. No
/// item is moved more often than once to an index that is its own, so the time is linear.
pub(crate) fn bring_near<T, F: Fn(&T) -> usize>(items: &mut [T], index_of: F)
    requires { F.IsAlwaysCallable index_of }
    ensures { IsPermutation items.old items.new }
{
    let mut at = 0;
    for _ in 0..items.len().saturating_mul(2) {
        if at >= items.len() {
            return;
        }
        at = bring_one(items, &index_of, at);
    }
}
