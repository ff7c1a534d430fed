ghost use Rattle.std.specs.Prelude.{◌≡◌, ℕ, ◌+◌, min};

use std::marker::{Model, PhantomData};

/// A count of the steps that calls take: of entries, skip data, index entries and terms that they decode or compare.
///
/// `L` is a label that keeps one kind of count apart from another; no value of it is kept. Contracts see the count.
#[derive(Drop)]
pub struct Steps<L> {
    count: u64,
    label: PhantomData<L>,
}

impl<L> Model for Steps<L> {
    ghost Value = { ℕ };

    ghost view = { λ s. s.count };
}

impl<L> Steps<L> {
    /// No steps yet.
    pub fn new() -> Steps<L>
        ensures { result ≡ 0 }
    {
        Steps {
            count: 0,
            label: PhantomData,
        }
    }

    /// How many steps there were, or `u64::MAX` where there were as many or more.
    pub fn count(&self) -> u64
        ensures { result ≡ self.now }
    {
        self.count
    }

    /// Counts one step more. A count of `u64::MAX` stays.
    pub fn tick(&mut self)
        ensures { self.new ≡ min (self.old + 1) u64.MAX }
    {
        self.count = self.count.saturating_add(1);
    }
}

#[cfg(test)]
mod tests {
    use super::*;

    // A label, of which no value is made.
    struct Compared;

    #[test]
    fn counts(rt: HostRuntime) {
        let mut steps: Steps<Compared> = Steps::new();
        steps.tick();
        steps.tick();
        assert_eq!(rt; steps.count(), 2);

        steps.count = u64::MAX;
        steps.tick();
        assert_eq!(rt; steps.count(), u64::MAX);
    }
}
