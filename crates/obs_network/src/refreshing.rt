// The network after a switch was opened or closed, or after any edit.
ghost use Rattle.std.specs.Prelude.{◌≡◌, ◌<◌, IsTrue, length};
ghost use Rattle.obs_case.specs.Tables.{IsValid};
ghost use Rattle.obs_network.specs.inner.Edited.{IsBeforeSwitch};
ghost use Rattle.obs_network.specs.Network.{network_of, rows_of};

use crate::network::Network;
use crate::rebuild::Known;
use obs_case::Case;

impl Network {
    /// Makes the network that of a case with as many rows in each table. Takes no memory.
    pub fn refresh(&mut self, case: &Case)
        requires rows { self.old.rows ≡ rows_of case.now }
        ensures whole { self.new ≡ network_of case.now }
    {
        self.remake(case, Known::Nothing);
    }

    // Whether a switch is closed now between nodes that had one bus already, or joins a node with itself.
    fn joins_nothing(&self, case: &Case, at: u32) -> bool
        requires switch { at < length case.now.switches }
        requires before { IsBeforeSwitch self.now at case.now }
        ensures same { IsTrue result → self.now ≡ network_of case.now }
        ensures valid { IsValid case.now }
    {
        let switch = &case.switches()[at as usize];
        let buses = self.buses();
        let one_bus = buses.bus(switch.from) == buses.bus(switch.to);
        one_bus && (switch.closed || switch.from == switch.to)
    }

    /// Makes the network that of the case after the flag of one switch was set, where it was that of the case before.
    /// Answers true only where nothing changed. Takes no memory.
    pub fn refresh_switch(&mut self, case: &Case, at: u32) -> bool
        requires switch { at < length case.now.switches }
        requires before { IsBeforeSwitch self.old at case.now }
        ensures whole { self.new ≡ network_of case.now }
        ensures same { IsTrue result → self.new ≡ self.old }
    {
        self.joins_nothing(case, at) || self.remake(case, Known::ByCount)
    }
}
