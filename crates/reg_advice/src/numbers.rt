//! Numbers in a list, where an index beyond its end is no fault, and short ones.

/// The number at an index, or 0 beyond the end.
pub fn number_or_zero(numbers: &[u32], index: u32) -> u32 {
    match numbers.get(index as usize) {
        Some(number) => *number,
        None => 0,
    }
}

/// Puts a number at an index, or nowhere beyond the end.
pub fn put_number(numbers: &mut [u32], index: u32, number: u32) {
    if (index as usize) < numbers.len() {
        numbers[index as usize] = number;
    }
}

/// The index that a list has for this one: it is kept counted from 1, and 0 or the end of the list is `None`.
pub fn index_at(numbers: &[u32], index: u32) -> Option<u32> {
    number_or_zero(numbers, index).checked_sub(1)
}

/// Puts an index that [`index_at`] answers.
pub fn put_index(numbers: &mut [u32], index: u32, kept: u32) {
    put_number(numbers, index, kept.saturating_add(1));
}

/// Adds to the number at an index.
pub fn raise(numbers: &mut [u32], index: u32, by: u32) {
    let raised = number_or_zero(numbers, index).saturating_add(by);
    put_number(numbers, index, raised);
}

/// Takes from the number at an index.
pub fn lower(numbers: &mut [u32], index: u32, by: u32) {
    let lowered = number_or_zero(numbers, index).saturating_sub(by);
    put_number(numbers, index, lowered);
}

/// So many, or the largest number that there is.
pub fn short(count: usize) -> u32 {
    match u32::try_from(count) {
        Ok(short) => short,
        Err(_) => u32::MAX,
    }
}

#[cfg(test)]
mod tests {
    use super::*;

    #[test]
    fn an_index_beyond_the_end_changes_nothing(rt: HostRuntime) {
        let mut numbers = [7u32, 8];
        put_number(&mut numbers, 2, 9);
        raise(&mut numbers, 2, 1);
        lower(&mut numbers, u32::MAX, 1);
        put_index(&mut numbers, 2, 0);
        assert_eq!(rt; numbers, [7, 8]);
        assert_eq!(rt; number_or_zero(&numbers, 2), 0);
        assert_eq!(rt; index_at(&numbers, 2), None);
    }

    #[test]
    fn numbers_stop_at_their_ends(rt: HostRuntime) {
        let mut numbers = [1u32, u32::MAX];
        raise(&mut numbers, 1, 1);
        lower(&mut numbers, 0, 2);
        assert_eq!(rt; numbers, [0, u32::MAX]);
        assert_eq!(rt; short(1 << 40), u32::MAX);
    }

    #[test]
    fn an_index_is_kept_from_one_on(rt: HostRuntime) {
        let mut kept = [0u32, 0];
        put_index(&mut kept, 1, 0);
        assert_eq!(rt; kept, [0, 1]);
        assert_eq!(rt; index_at(&kept, 0), None);
        assert_eq!(rt; index_at(&kept, 1), Some(0));
    }
}
