// Whether the claims of a certificate hold.
ghost use Rattle.std.specs.Prelude.{◌≡◌, ◌+◌, None, Some, IfErr, IfOk, OnOk, length};
ghost use Rattle.obs_network.specs.Network.{network_of, rows_of};
ghost use Rattle.obs_cert.specs.Flaws.{first_flaw};
ghost use Rattle.obs_cert.specs.inner.Ready.{HasRoomForRows};

use crate::cert::Cert;
use crate::claims::flaw_of;
use crate::flaw::Flaw;
use crate::keys::sort_keys;
use crate::layers::count_live;
use crate::memory::NoMemory;
use crate::walk::next_claim;
use crate::work::Work;
use obs_case::Case;
use obs_network::{Network, Present};
use std::alloc::Global;
use std::marker::Model;

/// The network of a case, what its claims are checked in, and the keys of its items. A contract sees the network.
pub struct Checker {
    // the network of the case
    network: Network,
    // marks, and ways up
    work: Work,
    // the keys of the items, sorted: live ones by price, and the idle ones behind them
    keys: Vec<u128>,
}

impl Model for Checker {
    ghost use Rattle.std.specs.Prelude.{◌≡◌, ◌+◌, length};
    ghost use Rattle.obs_network.specs.Network.{Network};
    ghost use Rattle.obs_cert.specs.inner.Ready.{HasRoomForRows};

    ghost Value = { Network };

    ghost view = { λ c. c.network };

    ghost invariant = { λ c. HasRoomForRows c.network.rows c.work
        × (length c.keys.items ≡ c.network.rows.meters + c.network.rows.candidates) };
}

// Written out: so a caller's proof sees one call, and not the drop of each field.
impl Drop for Checker {
    fn drop(self) {
        let Checker {
            network: _,
            work: _,
            keys: _,
        } = self;
    }
}

impl Checker {
    /// Room for checking the claims on a case.
    pub fn make(alloc: Global, case: &Case) -> Result<Checker, NoMemory>
        ensures network { IfOk result (λ c. c ≡ network_of case.now) }
    {
        let items = case.meters().len() + case.candidates().len();
        let Ok(network) = Network::make(alloc, case) else {
            return Err(NoMemory);
        };
        let Ok(work) = Work::make(alloc, case) else {
            return Err(NoMemory);
        };
        let Ok(keys) = vec![in alloc; 0; items] else {
            return Err(NoMemory);
        };
        Ok(Checker {
            network,
            work,
            keys,
        })
    }

    /// Whether every claim holds of the case, else the first one that fails, counted from 1, and its false clause of
    /// the lowest number.
    pub fn check(&mut self, case: &Case, cert: &Cert) -> Result<(), Flaw>
        requires of_case { self.old ≡ network_of case.now }
        ensures holds { OnOk result (first_flaw case.now 1 cert.now ≡ None) }
        ensures fails { IfErr result (λ flaw. first_flaw case.now 1 cert.now ≡ Some flaw) }
        ensures unchanged { self.new ≡ self.old }
    {
        let present = Present::of(case, &self.network);
        match first_flaw(&present, cert, &mut self.work, &mut self.keys) {
            None => Ok(()),
            Some(flaw) => Err(flaw),
        }
    }
}

// The flaw of the first claim that fails.
fn first_flaw(
    present: &Present<'_>,
    cert: &Cert,
    work: &mut Work,
    keys: &mut [u128],
) -> Option<Flaw>
    requires room { HasRoomForRows (rows_of present.now) work.old }
    requires keys { length keys.old ≡ length present.now.meters + length present.now.candidates }
    ensures flaw { result ≡ first_flaw present.now 1 cert.now }
    ensures room { HasRoomForRows (rows_of present.now) work.new }
    ensures keys { length keys.new ≡ length keys.old }
{
    work.begin(present);
    let live = count_live(present);
    sort_keys(present, keys);
    let mut at = 0;
    let mut rest = cert.bytes();
    while let Some((claim, behind)) = next_claim(rest) {
        rest = behind;
        at += 1;
        if let Some(code) = flaw_of(present, live, keys, claim, work, at) {
            return Some(Flaw { claim: at, code });
        }
    }
    None
}
