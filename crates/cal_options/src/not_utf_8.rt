//! The message for arguments that can't even be given to `clap`.

/// The message for arguments that aren't UTF-8, in the words of `clap`.
pub const NOT_UTF_8: &str = "error: invalid UTF-8 was detected in one or more arguments

For more information, try '--help'.
";
