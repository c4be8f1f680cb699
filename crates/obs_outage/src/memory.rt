// The one error of the calls that allocate.
ghost use Rattle.std.specs.Prelude.{◌≡◌};

use std::alloc::AllocError;

/// There is no memory.
#[derive(Clone, Copy, Debug)]
pub struct NoMemory;

impl From<obs_network::NoMemory> for NoMemory {
    ghost from_gives = { λ _ e. e ≡ e };

    fn from(_: obs_network::NoMemory) -> Self {
        NoMemory
    }
}

impl From<obs_kept::NoMemory> for NoMemory {
    ghost from_gives = { λ _ e. e ≡ e };

    fn from(_: obs_kept::NoMemory) -> Self {
        NoMemory
    }
}

impl From<AllocError> for NoMemory {
    ghost from_gives = { λ _ e. e ≡ e };

    fn from(_: AllocError) -> Self {
        NoMemory
    }
}

impl From<obs_graph::NoMemory> for NoMemory {
    ghost from_gives = { λ _ e. e ≡ e };

    fn from(_: obs_graph::NoMemory) -> Self {
        NoMemory
    }
}

impl From<obs_meter::NoMemory> for NoMemory {
    ghost from_gives = { λ _ e. e ≡ e };

    fn from(_: obs_meter::NoMemory) -> Self {
        NoMemory
    }
}
