ghost use Rattle.std.specs.Prelude.{◌≡◌, ◌↔◌, IsTrue};
ghost use Rattle.pb_ports.specs.Counts.{one_more, IsDue};

/// One more, in a count that stays at the end of its range.
pub(crate) fn count_on(count: u64) -> u64
    ensures { result ≡ one_more count }
{
    count.saturating_add(1)
}

/// Whether the call after so many is the one that is to fail. Calls are numbered from 1.
pub(crate) fn is_due(fail_at: Option<u64>, calls: u64) -> bool
    ensures { IsTrue result ↔ IsDue fail_at calls }
{
    match fail_at {
        Some(number) => number > 0 && number - 1 == calls,
        None => false,
    }
}
