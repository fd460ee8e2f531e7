//! Why a call stops early, or does nothing.

use std::alloc::{AllocError, AllocFailed};
use thiserror::Error;

/// Memory was refused.
#[derive(Clone, Copy, Debug, PartialEq, Eq, Error)]
#[error("memory exhausted")]
pub struct NoRoom;

impl From<AllocError> for NoRoom {
    fn from(_refused: AllocError) -> NoRoom {
        NoRoom
    }
}

impl<T: Drop> From<AllocFailed<T>> for NoRoom {
    fn from(_refused: AllocFailed<T>) -> NoRoom {
        NoRoom
    }
}

/// Why a call stopped before its end, and writes nothing more: `Memory` if there was none for a line or to open a file,
/// and `Write` if an output failed.
#[derive(Clone, Copy, Debug, PartialEq, Eq, Error)]
pub enum Stop {
    #[error("memory exhausted")]
    Memory,
    #[error("write error")]
    Write,
}

impl From<NoRoom> for Stop {
    ghost use Rattle.std.specs.Prelude.{◌≡◌};
    ghost use Rattle.sum_settings.specs.declared.stop.Stop.TheVariants.{Memory};

    ghost from_gives = { λ _ stop. stop ≡ Memory };

    fn from(_no_room: NoRoom) -> Stop {
        Stop::Memory
    }
}
