//! The words that every layer shares: the services, and why a call is refused.
#![tactic(auto)]

mod cause;
mod service;

pub use cause::{Cause, InputCause, StateCause};
pub use service::Service;
