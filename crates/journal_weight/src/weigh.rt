//! What has a weight, and the sums of weights.
ghost use Rattle.std.specs.Prelude.{◌≡◌, ℕ, sum_by};
ghost use Rattle.journal_weight.specs.Weights.{capped};

/// What has a weight.
pub(crate) trait Weigh {
    ghost weight: { Self → ℕ };

    /// Its weight, as far as there are numbers.
    fn weigh(&self) -> u64
        ensures { result ≡ capped (weight self.now) };
}

/// What these weigh together.
pub(crate) fn total<T: Weigh>(items: &[T]) -> u64
    ensures { result ≡ capped (sum_by T.weight items.now) }
{
    let mut sum: u64 = 0;
    for item in items {
        sum = sum.saturating_add(item.weigh());
    }
    sum
}
