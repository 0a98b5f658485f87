//! Runs of scenarios that are handed on as they happen, without the entries that are over: [`Stream`]; and their audits:
//! [`AuditStream`].
#![tactic(auto)]

mod audits;
mod plays;
mod stages;
mod streams;

pub use audits::AuditStream;
pub use streams::{Progress, STREAM_END, Stream};
