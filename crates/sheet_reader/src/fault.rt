ghost use Rattle.std.specs.Prelude.{◌≡◌};

use css_rules::RuleFault;
use css_tokens::{ComponentFault, OutOfMemory};
use thiserror::Error;

/// Why a text has no sheet, with the place in bytes of the text.
#[derive(Debug, Drop, Error)]
pub enum SheetFault {
    /// It cannot be read.
    #[error("cannot be read at byte {0}")]
    Syntax(u32),
    /// An opening token makes the depth 65.
    #[error("nested too deep at byte {0}")]
    Depth(u32),
    /// It has a construct that is not built yet.
    #[error("not built yet at byte {0}")]
    Unbuilt(u32),
    /// An import stands behind other rules or in a block.
    #[error("import comes too late at byte {0}")]
    LateImport(u32),
    /// Memory ran out.
    #[error("out of memory")]
    Memory,
}

impl From<OutOfMemory> for SheetFault {
    ghost use Rattle.sheet_reader.specs.declared.fault.SheetFault.TheVariants.{Memory};

    ghost from_gives = { λ _ fault. fault ≡ Memory };

    fn from(_error: OutOfMemory) -> SheetFault {
        SheetFault::Memory
    }
}

impl From<ComponentFault> for SheetFault {
    ghost use Rattle.sheet_reader.specs.Private.Faults.{of_components};

    ghost from_gives = { λ fault named. named ≡ of_components fault };

    fn from(fault: ComponentFault) -> SheetFault {
        match fault {
            ComponentFault::Syntax(at) => SheetFault::Syntax(at),
            ComponentFault::Depth(at) => SheetFault::Depth(at),
            ComponentFault::Memory => SheetFault::Memory,
        }
    }
}

impl From<RuleFault> for SheetFault {
    ghost use Rattle.sheet_reader.specs.Private.Faults.{of_rules};

    ghost from_gives = { λ fault named. named ≡ of_rules fault };

    fn from(fault: RuleFault) -> SheetFault {
        match fault {
            RuleFault::Syntax(at) => SheetFault::Syntax(at),
            RuleFault::Unbuilt(at) => SheetFault::Unbuilt(at),
            RuleFault::LateImport(at) => SheetFault::LateImport(at),
            RuleFault::Memory => SheetFault::Memory,
        }
    }
}
