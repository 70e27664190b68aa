//! Command lines: the rows that describe options and positional arguments, the `clap` command that is built from these
//! rows, parsing with `clap`, and reading values.
#![tactic(auto)]

mod argument;
mod argument_fault;
mod clap_command;
mod not_utf_8;
mod parsing;
mod values;

pub use argument::{Argument, ArgumentForm, NumberOption, needs_value};
pub use argument_fault::ArgumentFault;
pub use clap_command::{HasSubcommand, Subcommand, with_arguments, with_subcommands};
pub use not_utf_8::NOT_UTF_8;
pub use parsing::parse;
pub use values::{is_set, number_in, present_in, value_of};
