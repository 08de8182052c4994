//! What is timed, and what comes of it.
ghost use Rattle.std.specs.Prelude.{◌<◌};

use std::time::Duration;

/// Which calls of a deque or a bag are made.
#[derive(Clone, Copy)]
pub enum Form {
    /// The forms that wait for nobody. A busy call is not repeated.
    Try,
    Wait,
}

/// What is done with the one cell of a manager that all threads share.
#[derive(Clone, Copy)]
pub enum Turn {
    /// A pin, a hold of what the cell names, a read of a word of it, and an unpin.
    Read,
    /// Another object is taken, filled, shown and switched into the cell, and the old one is deferred, with a reclaim
    /// now and then.
    Replace,
}

/// What is timed: pairs of calls, or turns.
#[derive(Clone, Copy)]
pub enum Work {
    Deque(Form),
    Bag(Form),
    Epochs(Turn),
}

impl Work {
    fn from_words(object: &str, form: &str) -> Option<Work> {
        match (object, form) {
            ("deque", "try") => Some(Work::Deque(Form::Try)),
            ("deque", "wait") => Some(Work::Deque(Form::Wait)),
            ("bag", "try") => Some(Work::Bag(Form::Try)),
            ("bag", "wait") => Some(Work::Bag(Form::Wait)),
            ("epochs", "read") => Some(Work::Epochs(Turn::Read)),
            ("epochs", "replace") => Some(Work::Epochs(Turn::Replace)),
            _ => None,
        }
    }

    /// How many calls a pair has. A turn is timed whole.
    fn calls(self) -> u64 {
        match self {
            Work::Deque(_) | Work::Bag(_) => 2,
            Work::Epochs(_) => 1,
        }
    }
}

/// The words of the program.
#[derive(Clone, Copy)]
pub struct Order {
    pub work: Work,
    /// From 1 to 16, of which each has a caller, and in the bag and the manager a locale.
    pub threads: u8,
    /// How many pairs of calls, or turns, each thread makes, from 1.
    pub times: u32,
    ghost some_thread: { 0 < threads },
}

impl Order {
    /// `None` where the words are no order.
    pub fn from_words(words: &[String]) -> Option<Order> {
        let [object, form, threads, times] = words else {
            return None;
        };
        let work = Work::from_words(object.as_str(), form.as_str())?;
        let threads = threads.as_str().parse::<u8>().ok()?;
        let times = times.as_str().parse::<u32>().ok()?;
        if threads < 1 || threads > 16 || times < 1 {
            return None;
        }
        Some(Order {
            work,
            threads,
            times,
        })
    }
}

/// How many calls put an item in, and how many took one out. Of a manager: how many turns there were, and how many found
/// an object in the cell.
#[derive(Clone, Copy)]
pub struct Tally {
    pub put: u64,
    pub taken: u64,
}

impl Tally {
    pub fn new() -> Tally {
        Tally { put: 0, taken: 0 }
    }

    pub fn count(&mut self, put: bool, taken: bool) {
        self.put = self.put.wrapping_add(u64::from(put));
        self.taken = self.taken.wrapping_add(u64::from(taken));
    }

    /// Those of all threads.
    pub fn sum(tallies: &[Tally]) -> Tally {
        let mut all = Tally::new();
        for tally in tallies {
            all.put = all.put.saturating_add(tally.put);
            all.taken = all.taken.saturating_add(tally.taken);
        }
        all
    }
}

/// How long all threads took together, and what they did.
#[derive(Clone, Copy)]
pub struct Timed {
    pub time: Duration,
    pub tally: Tally,
}

impl Timed {
    /// Tenths of a nanosecond for each call, or turn, of one thread.
    pub fn tenths(self, order: Order) -> u64 {
        let nanos = u64::try_from(self.time.as_nanos()).unwrap_or(u64::MAX);
        nanos.saturating_mul(10)
            / order
                .work
                .calls()
                .saturating_mul(u64::from(order.times))
                .max(1)
    }
}
