// The one error of the calls that allocate.
ghost use Rattle.std.specs.Prelude.{◌≡◌};

use std::alloc::AllocError;

/// There is no memory.
#[derive(Clone, Copy, Debug)]
pub struct NoMemory;

impl From<AllocError> for NoMemory {
    ghost from_gives = { λ _ e. e ≡ e };

    fn from(_: AllocError) -> Self {
        NoMemory
    }
}

impl From<obs_graph::NoMemory> for NoMemory {
    ghost from_gives = { λ _ e. e ≡ e };

    fn from(_: obs_graph::NoMemory) -> Self {
        NoMemory
    }
}

impl From<obs_meter::NoMemory> for NoMemory {
    ghost from_gives = { λ _ e. e ≡ e };

    fn from(_: obs_meter::NoMemory) -> Self {
        NoMemory
    }
}

impl From<obs_assign::NoMemory> for NoMemory {
    ghost from_gives = { λ _ e. e ≡ e };

    fn from(_: obs_assign::NoMemory) -> Self {
        NoMemory
    }
}

impl From<obs_exchange::NoMemory> for NoMemory {
    ghost from_gives = { λ _ e. e ≡ e };

    fn from(_: obs_exchange::NoMemory) -> Self {
        NoMemory
    }
}
