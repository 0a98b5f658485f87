//! Tests of the texts for people: of an audit, and of hints for files with a mistake.

mod audits;
mod hints;
