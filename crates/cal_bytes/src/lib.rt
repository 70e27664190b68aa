//! Words, digits and lists of names in texts; input and output of bytes; short texts on the stack.
#![tactic(auto)]

mod bytes;
mod digits;
mod faulty;
mod names;
mod output;
mod port;
mod put;
mod short_text;
mod whole;
mod words;

pub use bytes::{Sink, Source};
pub use digits::{are_digits, decimal_value};
pub use faulty::{Faulty, Then};
pub use names::is_among;
pub use output::Output;
pub use port::Port;
pub use put::{WriteFault, put_all, put_pieces};
pub use short_text::{Fill, SHORT_TEXT_ROOM, ShortText, padding, push, push_all};
pub use whole::{WholeFault, read_whole};
pub use words::{blanks_in_front, first_word, last_word, trim_blanks, trim_blanks_end, word_len};
