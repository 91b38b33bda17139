// Counts of calls and of faults, which never fall.
ghost use Rattle.std.specs.Prelude.{◌≡◌};
ghost use Rattle.seq_io.specs.Count.{next_count};

/// Where a count of calls or of faults stays, in calls. A count that stands here may have risen
/// unseen.
pub const LAST_COUNT: u64 = u64::MAX;

// One more, or the last count.
pub(crate) fn next_count(count: u64) -> u64
    ensures { result ≡ next_count count }
{
    if count < LAST_COUNT {
        count + 1
    } else {
        LAST_COUNT
    }
}
