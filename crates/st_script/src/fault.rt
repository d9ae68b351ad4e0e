//! What may be wrong with the records of a session.
ghost use Rattle.std.specs.Prelude.{◌≡◌};

use st_ids::NoMemory;
use thiserror::Error;

/// Why a tree has no script.
#[derive(Clone, Copy, Debug, PartialEq, Eq, Error)]
pub enum ScriptFault {
    /// The first record whose value hasn't the shape of its key, by the byte at which the key begins.
    #[error("bad record at {at}")]
    BadRecord { at: u32 },
    /// Memory ran out.
    #[error("no memory")]
    NoMemory,
}

impl From<NoMemory> for ScriptFault {
    ghost use Rattle.std.specs.Prelude.{◌≡◌};
    ghost use Rattle.st_script.specs.declared.fault.ScriptFault.TheVariants.{NoMemory as no_memory};

    ghost from_gives = { λ _ f. f ≡ no_memory };

    fn from(_e: NoMemory) -> ScriptFault {
        ScriptFault::NoMemory
    }
}
