// A group's count of cases and of failures. `replay` has one of its own: the two programs share no crate that it belongs to.
ghost use Rattle.std.specs.Iterator.{IsFinite};

use std::fmt;

#[derive(Clone, Copy, Default)]
pub(crate) struct Tally {
    cases: u64,
    failures: u64,
}

impl Tally {
    // The tally of these cases, each right or failed.
    pub(crate) fn of<I: Iterator<Item = bool>>(cases: I) -> Tally
        requires can { I.can_next cases }
        requires ends { IsFinite (I.remaining cases) }
    {
        let mut tally = Tally::default();
        for right in cases {
            tally.add(right);
        }
        tally
    }

    // One case more.
    pub(crate) fn add(&mut self, right: bool) {
        self.cases = self.cases.wrapping_add(1);
        if !right {
            self.failures = self.failures.wrapping_add(1);
        }
    }
}

impl fmt::Display for Tally {
    fn fmt<W: fmt::Write>(&self, f: &mut fmt::Formatter<W>) -> fmt::Result {
        write!(f, "{} cases, {} failures", self.cases, self.failures)
    }
}
