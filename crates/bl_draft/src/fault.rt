// Why a draft's kinds can't be told.
ghost use Rattle.std.specs.Prelude.{◌≡◌};
ghost use Rattle.bl_draft.specs.Faults.{fault_of_plan, fault_of_shelf};

use bl_plan::PlanFault;
use bl_shelf::ShelfFault;
use thiserror::Error;

/// Why a draft's kinds can't be told. `Absent` and `Device` end the call where they happen.
#[derive(Clone, Copy, Debug, PartialEq, Eq, Error)]
pub enum DraftFault {
    /// A float of struct `t` would become another number.
    #[error("member {member} of struct {t} would turn a float into another number")]
    FloatCast { t: u32, member: u32 },
    /// The shelf doesn't hold a source.
    #[error("the file isn't there")]
    Absent,
    #[error("a device failed")]
    Device,
    #[error("out of memory")]
    NoMemory,
}

/// A shelf's fault as that of a draft.
pub(crate) fn shelf_fault(fault: ShelfFault) -> DraftFault
    ensures { result ≡ fault_of_shelf fault }
{
    match fault {
        ShelfFault::Absent => DraftFault::Absent,
        ShelfFault::Failed => DraftFault::Device,
        ShelfFault::NoMemory => DraftFault::NoMemory,
    }
}

/// A fault of plans as that of a draft.
pub(crate) fn plan_fault(fault: PlanFault) -> DraftFault
    ensures { result ≡ fault_of_plan fault }
{
    match fault {
        PlanFault::FloatCast { t, member } => DraftFault::FloatCast { t, member },
        PlanFault::NoMemory => DraftFault::NoMemory,
    }
}
