//! Certificates: claims on a case, line by line, as other programs may hand them in.
#![tactic(auto)]

mod cert;
mod checker;
mod claims;
mod contraction;
mod fault;
mod flaw;
mod forests;
mod hubs;
mod joins;
mod keys;
pub mod laws;
mod layers;
mod line;
mod line_words;
mod links;
mod lists;
mod marks;
mod memory;
mod numbers;
mod pairs;
mod place;
mod plans;
mod scopes;
mod stars;
mod walk;
mod work;

pub use cert::{Cert, read_cert};
pub use checker::Checker;
pub use fault::{CertCode, CertEnd, CertFault};
pub use flaw::{Flaw, FlawCode};
pub use memory::NoMemory;
