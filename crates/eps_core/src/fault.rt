//! What is wrong with bytes that are no picture's text.
ghost use Rattle.std.specs.Prelude.{◌≡◌};

use st_ids::NoMemory;
use thiserror::Error;

/// Why no picture is read from bytes.
#[derive(Clone, Copy, Debug, PartialEq, Eq, Error)]
pub enum EpsFault {
    /// The bytes are no picture's text. Some picture's text begins with the lines before this one, and none goes on with
    /// this one: it is another, or has no line feed, or is not there. Lines are numbered from 1.
    #[error("bad line {line}")]
    BadLine { line: u32 },
    /// Memory ran out.
    #[error("no memory")]
    NoMemory,
}

impl From<NoMemory> for EpsFault {
    ghost use Rattle.std.specs.Prelude.{◌≡◌};
    ghost use Rattle.eps_core.specs.declared.fault.EpsFault.TheVariants.{NoMemory as no_memory};

    ghost from_gives = { λ _ f. f ≡ no_memory };

    fn from(_e: NoMemory) -> EpsFault {
        EpsFault::NoMemory
    }
}
