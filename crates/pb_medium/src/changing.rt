//! When something on the medium changes next.

ghost use Rattle.std.specs.Prelude.{◌≡◌, ◌+◌, map};
ghost use Rattle.std.specs.List.{list_any};
ghost use Rattle.std.specs.Option.{option_map};
ghost use Rattle.pb_medium.specs.Entries.{entry_of};
ghost use Rattle.law_runs.specs.Bus.{is_in_air, next_known};

use crate::entries::Entry;

/// When something next reaches the taps, at `now` or later, in bit times. A tap can know of it one bit time later.
pub fn next_begin(entries: &[Entry], delay: u32, now: u64) -> Option<u64>
    ensures { option_map (λ begin. begin + 1) result ≡ next_known delay now (map entry_of entries.now) }
{
    entries
        .iter()
        .map(|entry| entry.reaches_taps(delay).begin())
        .filter(|begin| now <= *begin)
        .min()
}

/// Whether something that began before `now` is still on the bus at `now`.
pub fn something_lasts(entries: &[Entry], delay: u32, now: u64) -> bool
    ensures { result ≡ list_any (is_in_air delay now) (map entry_of entries.now) }
{
    entries.iter().any(|entry| lasts(entry, delay, now))
}

fn lasts(entry: &Entry, delay: u32, now: u64) -> bool
    ensures { result ≡ is_in_air delay now (entry_of entry.now) }
{
    entry.begin() < now && now < entry.reaches_taps(delay).end()
}
