//! The JSON document of each verb. `next` prints the same document as `show`.
//!
//! A document is an indented JSON text (RFC 8259) that ends with a line feed. Which objects a document consists of, and
//! the names and the order of their members, is this project's own choice.

mod between;
mod due;
mod lint;
mod list;
mod same;
mod show;
mod times;
mod to_json;

pub use between::between_json;
pub use due::due_json;
pub use lint::lint_json;
pub use list::list_json;
pub use same::same_json;
pub use show::show_json;
