// Want of memory.
ghost use Rattle.std.specs.Prelude.{◌≡◌};

/// There is no memory.
#[derive(Clone, Copy, Debug)]
pub struct NoMemory;

impl From<obs_switch::NoMemory> for NoMemory {
    ghost from_gives = { λ _ e. e ≡ e };

    fn from(_: obs_switch::NoMemory) -> Self {
        NoMemory
    }
}

impl From<obs_graph::NoMemory> for NoMemory {
    ghost from_gives = { λ _ e. e ≡ e };

    fn from(_: obs_graph::NoMemory) -> Self {
        NoMemory
    }
}
