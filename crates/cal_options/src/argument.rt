//! The rows that describe the options and the positional arguments of a command. Each program has a table of such rows.

ghost use Rattle.std.specs.Prelude.{◌≡◌};
ghost use Rattle.std.specs.List.{list_any};
ghost use Rattle.cal_options.specs.rules.Arguments.{is_long_option, is_short_option, is_value_option, shown_argument};

/// An option or a positional argument, and what the help says about it.
#[derive(Clone, Copy)]
pub struct Argument {
    /// The name of an option, without the `--` before it. For a positional argument, the name is only used to look up
    /// its values, and users don't see it.
    pub name: &'static str,
    pub form: ArgumentForm,
    /// What the help calls the value, or an empty text if the option has no value.
    pub value_name: &'static str,
    /// The text in the help. `clap` prints a line break for `{n}`.
    pub help: &'static str,
}

/// How an argument is given.
#[derive(Clone, Copy)]
pub enum ArgumentForm {
    /// As an option with a value, at most once.
    Value,
    /// Like `Value`; the option also has a short form, an ASCII letter, as in `-n 3`.
    ShortValue(u8),
    /// As an option without a value.
    Flag,
    /// Like `Flag`; the option also has a short form, an ASCII letter, as in `-a`.
    ShortFlag(u8),
    /// As one positional argument, which is required.
    One,
    /// As a positional argument that may be left out.
    AtMostOne,
    /// As any number of positional arguments.
    Any,
    /// As at least one positional argument.
    AtLeastOne,
}

/// An option whose value is a number from `least` to `most`.
#[derive(Clone, Copy)]
pub struct NumberOption {
    pub option: Argument,
    pub least: u64,
    pub most: u64,
}

/// Returns whether the word is an option, among the given ones, whose value is the next word.
pub fn needs_value(arguments: &[Argument], word: &str) -> bool
    ensures { result ≡ list_any (λ argument. is_value_option word.now (shown_argument argument)) arguments.now }
{
    arguments
        .iter()
        .any(|argument| is_value_option(*argument, word))
}

fn is_value_option(argument: Argument, word: &str) -> bool
    ensures { result ≡ is_value_option word.now (shown_argument argument) }
{
    match argument.form {
        ArgumentForm::Value => is_long_option(argument, word),
        ArgumentForm::ShortValue(letter) => {
            is_long_option(argument, word) || is_short_option(letter, word)
        }
        _ => false,
    }
}

/// Returns whether the word is `--` and the name of the option.
fn is_long_option(argument: Argument, word: &str) -> bool
    ensures { result ≡ is_long_option word.now argument.name.now }
{
    word.strip_prefix("--") == Some(argument.name)
}

/// Returns whether the word is `-` and the letter.
fn is_short_option(letter: u8, word: &str) -> bool
    ensures { result ≡ is_short_option word.now letter }
{
    word.as_bytes() == [b'-', letter].as_slice()
}
