//! Logs that only proofs see. They take no room, and their calls do nothing. What is logged belongs elsewhere: to the
//! crate of the calls that a log is of.
//!
//! Clauses see a log as a value of its type parameter, its state. No code can read it, so what a contract says of it
//! matters to a caller only if a clause of a trait depends on it.
//!
//! ```rust
//! let log: Log<SinkCalls> = Log::of(&SinkCalls);
//! let log = log.with_note(&SinkFault);
//! ```
#![tactic(auto)]

ghost use Rattle.std.specs.{Borrow.ftrue, Prelude.◌≡◌};

use std::fmt;
use std::fmt::{Debug, Formatter, Write};
use std::marker::{Model, PhantomData};

/// What a log's state becomes by a note.
pub trait Notes<X> {
    ghost after_note: { Self → X → Self };
}

/// A log: proofs see a value of `T`, its state; a program sees nothing, and it takes no memory.
#[derive(Drop)]
pub struct Log<T> {
    of: PhantomData<T>,
    ghost state: { T },
}

impl<T> Model for Log<T> {
    ghost Value = { T };

    ghost view = { λ l. l.state };

    ghost also_owns = { λ _. ftrue };
}

impl<T> Debug for Log<T> {
    fn fmt<W: Write>(&self, f: &mut Formatter<W>) -> fmt::Result {
        f.write_str("Log")
    }
}

// The state of a log, made of a value.
trait StateOf<X, T> {
    ghost state_of: { X → T };
}

// What says that the state is the value itself.
struct Itself;

impl<T> StateOf<T, T> for Itself {
    ghost state_of = { λ x. x };
}

// What says that the state is a log's after one more note.
struct WithNote;

impl<'a, X, T: Notes<X>> StateOf<(&'a Log<T>, &'a X), T> for WithNote {
    ghost state_of = { λ x. T.after_note x.0.now x.1.now };
}

impl<T> Log<T> {
    // A log with the state that `M` makes of `x`.
    fn made<X, M: StateOf<X, T>>(x: &X) -> Log<T>
        ensures { result ≡ M.state_of x.now }
    {
        Log { of: PhantomData }
    }

    /// Creates a log whose state is this value.
    pub fn of(first: &T) -> Log<T>
        ensures state { result ≡ first.now }
    {
        Log::made::<_, Itself>(first)
    }

    /// Returns this log after one more note.
    pub fn with_note<X>(&self, note: &X) -> Log<T>
    where
        T: Notes<X>,
        ensures state { result ≡ T.after_note self.now note.now }
    {
        Log::made::<_, WithNote>(&(self, note))
    }
}
