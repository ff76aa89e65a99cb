//! What an audit is told of a specification.

use jm_events::{EventTable, Names};
use jm_handler::Handler;
use jm_model::Monitor;

/// A specification as an audit needs it: its rules, its name, its events and parameters, the names of its handlers'
/// categories, and what the handlers print, in the order of the categories.
#[derive(Drop)]
pub struct Sheet<'a, M: Monitor> {
    pub rules: &'a M,
    pub name: &'a str,
    pub table: &'a EventTable,
    pub categories: &'a Names,
    pub handlers: &'a [Handler],
}
