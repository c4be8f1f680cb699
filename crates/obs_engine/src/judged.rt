// The verdict on a case by a longest assignment of its meters, and the status of an answer that was printed.
ghost use Rattle.std.specs.Prelude.{◌≡◌};
ghost use Rattle.obs_network.specs.Network.{network_of};
ghost use Rattle.obs_kept.specs.inner.Kept.{AreLongest};
ghost use Rattle.obs_engine.specs.Asks.{report_status};
ghost use Rattle.obs_engine.specs.inner.Replies.{printed_status};

use obs_assign::Assignment;
use obs_case::Case;
use obs_files::Status;
use obs_io::Failed;
use obs_network::Network;

/// Done where the case has as many pairs as it needs: there are as many as there can be.
pub(crate) fn kept_verdict(case: &Case, network: &Network, pairs: &Assignment) -> Status
    requires network { network.now ≡ network_of case.now }
    requires longest { AreLongest case.now pairs.now }
    ensures status { result ≡ report_status case.now }
{
    let _nodes = case.nodes();
    if pairs.length() == network.needed() {
        Status::Done
    } else {
        Status::Short
    }
}

/// The status of an answer: its own, where all of it was printed.
pub(crate) fn printed_status(outcome: Result<(), Failed>, status: Status) -> Status
    ensures status { result ≡ printed_status outcome status }
{
    match outcome {
        Ok(()) => status,
        Err(Failed) => Status::WriteFault,
    }
}
