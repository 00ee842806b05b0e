// The commands of the program `route`: read from words, and traced.
#![tactic(auto)]

mod command;
mod shape_name;
mod trace_error;
mod tracing;
mod word_error;

pub use command::{Command, command_of, number, parse};
pub use shape_name::{ShapeName, shape_named};
pub use trace_error::TraceError;
pub use tracing::traced;
pub use word_error::WordError;
