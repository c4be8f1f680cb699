// The laws of stations.
ghost use Rattle.std.specs.Prelude.{◌≡◌, ◌↔◌, ◌<◌, ℕ, length, slice_index};
ghost use Rattle.obs_case.specs.Tables.{IsValid, Tables};
ghost use Rattle.obs_matroid.specs.Lists.{In};
ghost use Rattle.obs_meter.specs.Assignments.{IsRhoAt};
ghost use Rattle.obs_network.specs.Network.{case_branches, case_meters};
ghost use Rattle.obs_network.specs.Observable.{case_live_meters};
ghost use Rattle.obs_switch.specs.Buses.{AreOneBus};
ghost use Rattle.obs_station.specs.Stations.{all_links, case_stations, loss_of, loss_stations, other_meters, station_meters};

/// Two nodes are of one station exactly where a chain of switches, open or closed, joins them.
pub fn stations_by_chains()
    ensures station { (t : Tables) (u v : ℕ) → u < length t.nodes → v < length t.nodes →
        (slice_index (case_stations t) u ≡ slice_index (case_stations t) v) ↔ AreOneBus (all_links t.switches) u v }
{}

/// Each live meter belongs to exactly one listed station.
pub fn each_live_meter_has_a_station()
    ensures some_station { (t : Tables) → IsValid t → (m : ℕ) → In m (case_live_meters t) →
        (c : ℕ) × In c (loss_stations t) × In m (station_meters t c) }
    ensures one_station { (t : Tables) (c d m : ℕ) → In m (station_meters t c) → In m (station_meters t d) → c ≡ d }
{}

/// The rank in the loss of a station is the greatest length of an assignment of the live meters of all others.
pub fn losses_are_of_other_meters()
    ensures rank { (t : Tables) → IsValid t → (c : ℕ) →
        IsRhoAt (case_branches t) (case_meters t) (other_meters t c) (loss_of t c).rank }
{}
