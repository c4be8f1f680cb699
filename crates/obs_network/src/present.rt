// A case and its network, which are lent together.
ghost use Rattle.std.specs.Prelude.{◌≡◌, ◌<◌, ◌^◌};
ghost use Rattle.obs_graph.specs.Positions.{AreBranches};
ghost use Rattle.obs_meter.specs.inner.Touches.{AreInRange};
ghost use Rattle.obs_case.specs.Tables.{IsValid};
ghost use Rattle.obs_network.specs.Network.{network_of};

use crate::network::Network;
use obs_case::Case;
use obs_graph::Graph;
use obs_meter::Meters;
use std::marker::Model;

/// A case and the network that it determines. A contract sees the tables of the case.
#[derive(Drop)]
pub struct Present<'a> {
    pub case: &'a Case,
    pub network: &'a Network,
}

impl<'a> Model for Present<'a> {
    ghost use Rattle.std.specs.Prelude.{◌≡◌};
    ghost use Rattle.obs_case.specs.Tables.{IsValid, Tables};
    ghost use Rattle.obs_network.specs.Network.{network_of};

    ghost Value = { Tables };

    ghost view = { λ p. p.case.now };

    ghost invariant = { λ p. (p.network.now ≡ network_of p.case.now) × IsValid p.case.now };
}

impl<'a> Present<'a> {
    /// A case with its network.
    pub fn of(case: &'a Case, network: &'a Network) -> Present<'a>
        requires of_case { network.now ≡ network_of case.now }
        ensures case { result ≡ case.now }
        ensures valid { IsValid case.now }
    {
        let _nodes = case.nodes();
        Present { case, network }
    }

    /// The case.
    pub fn case(&self) -> &'a Case
        ensures case { result.now ≡ self.now }
        ensures valid { IsValid self.now }
    {
        self.case
    }

    /// Its network.
    pub fn network(&self) -> &'a Network
        ensures network { result.now ≡ network_of self.now }
        ensures valid { IsValid self.now }
    {
        self.network
    }

    /// The graph of its network.
    pub fn graph(&self) -> &'a Graph
        ensures graph { result.now ≡ (network_of self.now).graph }
        ensures branches { AreBranches result.now.vertices result.now.ends }
        ensures few { result.now.vertices < 2 ^ 32 }
        ensures valid { IsValid self.now }
    {
        self.network.graph()
    }

    /// What its meters touch there.
    pub fn meters(&self) -> &'a Meters
        ensures meters { result.now ≡ (network_of self.now).meters }
        ensures in_range { AreInRange (network_of self.now).graph result.now.touches }
        ensures valid { IsValid self.now }
    {
        self.network.meters()
    }
}
