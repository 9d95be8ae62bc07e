//! Kept completions are forgotten.
ghost use Rattle.std.specs.Prelude.{◌≡◌, ◌-◌, ◌^◌, count_by, length, min};
ghost use Rattle.std.specs.FinMap.{entries};
ghost use Rattle.s3_native.specs.Forgetting.{all_old, is_older, newer, newer_in_each};

use crate::kept::NativeKept;
use crate::named::Named;
use crate::native::NativeBucket;

impl Named<NativeKept> {
    /// How many completions have a moment before this one.
    pub(crate) fn count_older(&self, before: u64) -> u64
        ensures { result ≡ count_by (λ entry. is_older before entry.1) (entries self.now) }
    {
        self.entries
            .values()
            .filter(|it| it.is_older(before))
            .count() as u64
    }

    /// Drops the completions with a moment before this one.
    pub(crate) fn drop_older(&mut self, before: u64)
        ensures { self.new ≡ newer before self.old }
    {
        self.entries.retain(|_, it| !it.is_older(before));
    }
}

impl Named<NativeBucket> {
    /// How many completions that are kept in the buckets have a moment before this one; the most that the type has, where there
    /// are more.
    pub(crate) fn count_older_in_each(&self, before: u64) -> u64
        ensures { result ≡ min (length (all_old before self.now)) (2 ^ 64 - 1) }
    {
        let mut count = 0u64;
        for (_, bucket) in self.as_map() {
            count = count.saturating_add(bucket.count_older(before));
        }
        count
    }

    /// Drops those.
    pub(crate) fn drop_older_in_each(&mut self, before: u64)
        ensures { self.new ≡ newer_in_each before self.old }
    {
        self.entries.retain(|_, bucket| {
            bucket.drop_older(before);
            true
        });
    }
}
