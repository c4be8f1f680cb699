//! The words of a call, the files that they name, and the case that these are.
#![tactic(auto)]

mod cases;
mod files;
pub mod laws;
mod limits;
mod status;
mod taken;
mod words;

pub use cases::take_case;
pub use limits::Limits;
pub use status::Status;
pub use taken::{CaseError, Taken};
pub use words::{CaseCommand, CaseForm, Form, Study, form_of_words};
