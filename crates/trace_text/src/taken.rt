//! Which frames of the machine are owned.

ghost use Rattle.std.specs.Prelude.{◌≡◌, ℕ, ◌+◌, ◌<◌, ◌≤◌, ◌||◌, ◌&&◌, not, nat_le, nat_lt, true, false, length, slice_index_or, slice_range, vec_len};
ghost use Rattle.std.specs.List.{list_all};

/// Whether none of those frames is taken.
pub(crate) fn is_free(taken: &[bool], first: usize, count: usize) -> bool
    requires { first + count ≤ length taken.now }
    ensures { result ≡ list_all not (slice_range taken.now first (first + count)) }
{
    taken[first..first + count].iter().all(|t| !*t)
}

/// Marks those frames as taken.
pub(crate) fn take(taken: &mut Vec<bool>, first: usize, count: usize)
    requires { first + count ≤ vec_len taken.old }
    ensures each { length taken.new.items ≡ length taken.old.items }
    ensures are { (k : ℕ) → k < length taken.old.items → slice_index_or taken.new.items k false ≡ (slice_index_or taken.old.items k false || (nat_le first k && nat_lt k (first + count))) }
{
    for at in first..first + count {
        taken[at] = true;
    }
}
