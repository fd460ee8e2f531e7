//! A meter whose total is proved to be the sum of all that it was fed, which only a log has.
#![tactic(auto)]

ghost use Rattle.std.specs.Prelude.{◌≡◌, ◌<◌, ◌+◌, ◌^◌, ◌∷◌, ◌++◌, [], sum};

use ghost_log::{Log, Notes};
use std::io;
use std::marker::Model;

/// A meter that was fed nothing: with this its log begins.
struct NothingFed;

impl Model for NothingFed {
    ghost use Rattle.std.specs.Prelude.{ℕ, List, []};

    ghost Value = { List ℕ };

    ghost view = { λ _. [] };
}

/// This amount was fed.
#[derive(Clone, Copy)]
struct Fed(u32);

impl Notes<Fed> for NothingFed {
    ghost after_note = { λ amounts fed. amounts ++ fed.0 ∷ [] };
}

/// A meter, and the log of what it was fed.
#[derive(Drop)]
struct Meter {
    total: u32,
    log: Log<NothingFed>,
    ghost is_sum: { total ≡ sum log },
}

impl Meter {
    /// Creates a meter that was fed nothing.
    fn new() -> Meter
        ensures { result.log ≡ [] }
    {
        Meter {
            total: 0,
            log: Log::of(&NothingFed),
        }
    }

    /// Feeds the meter.
    fn feed(&mut self, amount: u32)
        requires { sum self.old.log + amount < 2 ^ 32 }
        ensures { self.new.log ≡ self.old.log ++ amount ∷ [] }
    {
        self.log = self.log.with_note(&Fed(amount));
        self.total += amount;
    }
}

fn main(rt: HostRuntime) -> io::Result<()> {
    let mut meter = Meter::new();
    meter.feed(3);
    meter.feed(4);
    println!(rt; "{}", meter.total)
}
