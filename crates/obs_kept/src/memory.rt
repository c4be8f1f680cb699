// The one error of the calls that allocate.
ghost use Rattle.std.specs.Prelude.{◌≡◌};

/// There is no memory.
#[derive(Clone, Copy, Debug)]
pub struct NoMemory;

impl From<obs_network::NoMemory> for NoMemory {
    ghost from_gives = { λ _ e. e ≡ e };

    fn from(_: obs_network::NoMemory) -> Self {
        NoMemory
    }
}

impl From<obs_assign::NoMemory> for NoMemory {
    ghost from_gives = { λ _ e. e ≡ e };

    fn from(_: obs_assign::NoMemory) -> Self {
        NoMemory
    }
}

impl From<obs_exchange::NoMemory> for NoMemory {
    ghost from_gives = { λ _ e. e ≡ e };

    fn from(_: obs_exchange::NoMemory) -> Self {
        NoMemory
    }
}
