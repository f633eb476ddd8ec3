//! Counts of faults and of reads.
ghost use Rattle.std.specs.Prelude.{◌≡◌};
ghost use Rattle.io_edges.specs.Counts.{count_begun, one_more};

/// A count that has risen, or stays at its last value.
pub(crate) fn raised(count: u64) -> u64
    ensures { result ≡ one_more count }
{
    count.saturating_add(1)
}

/// A count of reads that began at the first byte, after a read from a place on.
pub(crate) fn begun_after(count: u64, at: u64) -> u64
    ensures { result ≡ count_begun at count }
{
    if at == 0 {
        return raised(count);
    }
    count
}
