// The buses of two tables.
ghost use Rattle.std.specs.Prelude.{◌≡◌, ◌++◌, codes};
ghost use Rattle.obs_network.specs.Switched.{case_bus_count, case_buses};
ghost use Rattle.obs_report.specs.Lines.{count_line, last_line};
ghost use Rattle.obs_report.specs.inner.Printed.{Appends};
ghost use Rattle.obs_engine.specs.inner.Replies.{IsReplied};
ghost use Rattle.obs_engine.specs.Topology.{topology_reply, topology_text};

use crate::judged::printed_status;
use obs_case::Case;
use obs_files::Status;
use obs_io::{Failed, Sink};
use obs_network::buses_of_case;
use obs_report::{print_count, print_last_line, print_nodes};
use obs_switch::Buses;
use std::alloc::Global;

// Prints how many buses there are, and the last line.
fn print_bus_count<W: Sink>(output: &mut W, count: u32) -> Result<(), Failed>
    ensures appends { Appends W.written W.faults W.has_room output.old output.new result
        (count_line (codes "buses") count ++ last_line) }
{
    match print_count(output, b"buses", count as u64) {
        Ok(()) => print_last_line(output),
        Err(Failed) => Err(Failed),
    }
}

// Prints the bus of each node and how many buses there are.
fn print_topology<W: Sink>(output: &mut W, case: &Case, buses: &Buses) -> Result<(), Failed>
    requires buses { buses.now.buses ≡ case_buses case.now }
    requires count { buses.now.count ≡ case_bus_count case.now }
    ensures appends { Appends W.written W.faults W.has_room output.old output.new result (topology_text case.now) }
{
    match print_nodes(output, case, buses) {
        Ok(()) => print_bus_count(output, buses.count()),
        Err(Failed) => Err(Failed),
    }
}

/// Answers `topology` on a case of nodes and switches.
pub(crate) fn answer_topology<W: Sink>(alloc: Global, output: &mut W, case: &Case) -> Status
    ensures replied { IsReplied W.written W.faults W.has_room output.old output.new result (topology_reply case.now) }
{
    let Ok(buses) = buses_of_case(alloc, case) else {
        return Status::NoMemory;
    };
    printed_status(print_topology(output, case, &buses), Status::Done)
}
