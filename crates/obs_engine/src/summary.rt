// The summary of a case, counted over its network.
ghost use Rattle.std.specs.Prelude.{◌≡◌, ◌<◌, ◌^◌, ◌&&◌, IfOk, ℕ, length, nat_lt, count_by, slice_index, true};
ghost use Rattle.obs_meter.specs.Touches.{is_live};
ghost use Rattle.obs_network.specs.Network.{case_branches, case_meters, network_of};
ghost use Rattle.obs_network.specs.Switched.{case_bus_count};
ghost use Rattle.obs_engine.specs.Summaries.{crowded_buses, injection_bus, injection_count, is_injection, summary_of};

use obs_case::{Case, Kind};
use obs_network::{Network, NoMemory};
use obs_notice::Summary;
use obs_report::count_energised;
use std::alloc::Global;

// Whether a meter is a live injection or zero.
fn is_live_injection(case: &Case, network: &Network, m: u32) -> bool
    requires network { network.now ≡ network_of case.now }
    requires meter { m < length case.now.meters }
    ensures live { result ≡ (is_live (case_branches case.now) (case_meters case.now) m && is_injection case.now m) }
{
    match case.meters()[m as usize].kind {
        Kind::Injection | Kind::Zero => network.meters().live(network.graph(), m),
        Kind::Flow | Kind::Angle => false,
    }
}

// The bus at which an injection or a zero stands.
fn injection_bus(case: &Case, network: &Network, m: u32) -> u32
    requires network { network.now ≡ network_of case.now }
    requires meter { m < length case.now.meters }
    requires injection { is_injection case.now m ≡ true }
    ensures bus { result ≡ injection_bus case.now m }
    ensures below { result < case_bus_count case.now }
{
    network.buses().bus(case.meters()[m as usize].at)
}

// Counts the live injections and zeros at each bus.
fn count_injections(case: &Case, network: &Network, counts: &mut [u32])
    requires network { network.now ≡ network_of case.now }
    requires buses { length counts.old ≡ case_bus_count case.now }
    ensures buses { length counts.new ≡ case_bus_count case.now }
    ensures counts { (bus : ℕ) → bus < case_bus_count case.now → slice_index counts.new bus ≡ injection_count case.now bus }
{
    counts.fill(0);
    for m in 0..case.meters().len() as u32 {
        if is_live_injection(case, network, m) {
            counts[injection_bus(case, network, m) as usize] += 1;
        }
    }
}

// How many of these numbers are more than 1.
fn count_several(counts: &[u32]) -> u32
    requires few { length counts.now < 2 ^ 32 }
    ensures several { result ≡ count_by (λ n. nat_lt 1 n) counts.now }
{
    let mut several = 0;
    for count in counts {
        if *count > 1 {
            several += 1;
        }
    }
    several
}

// At how many buses more than one live injection or zero stands.
fn count_crowded(case: &Case, network: &Network, counts: &mut [u32]) -> u32
    requires network { network.now ≡ network_of case.now }
    requires buses { length counts.old ≡ case_bus_count case.now }
    requires few { length counts.old < 2 ^ 32 }
    ensures crowded { result ≡ crowded_buses case.now }
{
    count_injections(case, network, counts);
    count_several(counts)
}

/// The summary of a case. What it takes for counting it gives back.
pub(crate) fn sum_up(alloc: Global, case: &Case, network: &Network) -> Result<Summary, NoMemory>
    requires network { network.now ≡ network_of case.now }
    ensures summary { IfOk result (λ s. s ≡ summary_of case.now) }
{
    let buses = network.buses().count();
    let Ok(mut counts) = vec![in alloc; 0; buses as usize] else {
        return Err(NoMemory);
    };
    Ok(Summary {
        buses,
        energised: count_energised(network),
        crowded: count_crowded(case, network, &mut counts),
    })
}
