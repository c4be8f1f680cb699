// The buses of a case.
ghost use Rattle.std.specs.Prelude.{◌≡◌, IfOk};
ghost use Rattle.obs_network.specs.Switched.{case_bus_count, case_buses};

use crate::memory::NoMemory;
use crate::rebuild::relabel;
use obs_case::Case;
use obs_switch::{Buses, Link};
use std::alloc::Global;

/// The buses of a case, made anew.
pub fn buses_of_case(alloc: Global, case: &Case) -> Result<Buses, NoMemory>
    ensures buses { IfOk result (λ b. b.buses ≡ case_buses case.now) }
    ensures count { IfOk result (λ b. b.count ≡ case_bus_count case.now) }
{
    let nodes = case.nodes().len() as u32;
    let Ok(mut buses) = Buses::make(alloc, nodes, 0) else {
        return Err(NoMemory);
    };
    let Ok(mut links) = vec![in alloc; Link { from: 0, to: 0 }; case.switches().len()] else {
        return Err(NoMemory);
    };
    relabel(case, &mut links, &mut buses);
    Ok(buses)
}
