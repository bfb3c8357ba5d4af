//! How long strips wait for each other.

use std::time::{Clock, Duration};

/// What a strip asks while it waits for its neighbors.
pub trait Watch {
    /// A wait begins.
    fn begin_wait(&mut self);

    /// A wait is over.
    fn end_wait(&mut self);

    /// Whether it waits too long.
    fn is_late(&self) -> bool;
}

/// The watch of a strip in a thread of its own. It knows no time: such a strip waits until its neighbor comes or one has given up.
#[derive(Drop)]
pub struct NoWatch;

impl Watch for NoWatch {
    fn begin_wait(&mut self) {}

    fn end_wait(&mut self) {}

    fn is_late(&self) -> bool {
        false
    }
}

/// The watch of the strip on the calling thread, the only thread that knows a clock. One thread would make the run in what this
/// strip works for all strips: if it has waited longer than that, strips don't pay.
#[derive(Drop)]
pub struct Stopwatch<'a, R: Clock> {
    clock: &'a R,
    pub others: u32,
    patience: Duration,
    mark: Duration,
    worked: Duration,
    waited: Duration,
}

// The time of a clock. One that can't be read stands still, and then nobody is late.
fn time_of<R: Clock>(clock: &R) -> Duration {
    clock.monotonic().unwrap_or(Duration::ZERO)
}

impl<'a, R: Clock> Stopwatch<'a, R> {
    /// Starts for a strip beside so many others. It may wait so many milliseconds, however little it has worked.
    pub fn start(clock: &'a R, others: u32, patience: u64) -> Stopwatch<'a, R> {
        Stopwatch {
            clock,
            others,
            patience: Duration::from_millis(patience),
            mark: time_of(clock),
            worked: Duration::ZERO,
            waited: Duration::ZERO,
        }
    }

    // How long it is since the last mark.
    fn since_mark(&self) -> Duration {
        time_of(self.clock).saturating_sub(self.mark)
    }

    /// Whether the other strips should have begun by now.
    pub fn is_late_to_begin(&self) -> bool {
        self.since_mark() > self.patience
    }
}

impl<R: Clock> Watch for Stopwatch<'_, R> {
    fn begin_wait(&mut self) {
        self.worked = self.worked.saturating_add(self.since_mark());
        self.mark = time_of(self.clock);
    }

    fn end_wait(&mut self) {
        self.waited = self.waited.saturating_add(self.since_mark());
        self.mark = time_of(self.clock);
    }

    fn is_late(&self) -> bool {
        let others = self.worked.saturating_mul(self.others);
        let waited = self.waited.saturating_add(self.since_mark());
        waited > others.saturating_add(self.patience)
    }
}
