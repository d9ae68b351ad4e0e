//! The faults of bytes that are no text.

ghost use Rattle.std.specs.Prelude.{◌≡◌};
ghost use Rattle.gml_core.specs.declared.fault.GmlFault.TheVariants as faults;

use st_ids::NoMemory;
use std::alloc::{AllocError, AllocFailed};
use thiserror::Error;

/// The first fault of bytes, with its offset in them.
#[derive(Debug, Drop, Error)]
pub enum GmlFault {
    /// No token begins with this byte.
    #[error("bad byte at {at}")]
    BadByte { at: u32 },
    /// The string that begins here has no second quote.
    #[error("open string at {at}")]
    OpenString { at: u32 },
    /// The run that begins here is no number.
    #[error("bad number at {at}")]
    BadNumber { at: u32 },
    /// The integer that begins here is outside signed 64 bits.
    #[error("big number at {at}")]
    BigNumber { at: u32 },
    /// Behind this key comes no value.
    #[error("key without value at {at}")]
    NoValue { at: u32 },
    /// The text ends in the list that begins here.
    #[error("unclosed list at {at}")]
    Unclosed { at: u32 },
    /// No pair begins with this token.
    #[error("stray token at {at}")]
    Stray { at: u32 },
    /// The list that begins here would have depth 33.
    #[error("list too deep at {at}")]
    TooDeep { at: u32 },
    /// Memory ran out.
    #[error("no memory")]
    NoMemory,
}

impl From<AllocError> for GmlFault {
    ghost from_gives = { λ _ e. e ≡ faults.NoMemory };

    fn from(_e: AllocError) -> GmlFault {
        GmlFault::NoMemory
    }
}

impl<T: Drop> From<AllocFailed<T>> for GmlFault {
    ghost from_gives = { λ _ e. e ≡ faults.NoMemory };

    fn from(_e: AllocFailed<T>) -> GmlFault {
        GmlFault::NoMemory
    }
}

impl From<NoMemory> for GmlFault {
    ghost from_gives = { λ _ e. e ≡ faults.NoMemory };

    fn from(_e: NoMemory) -> GmlFault {
        GmlFault::NoMemory
    }
}
