//! The numbers and the messages of the errors of expressions.

use crate::shared::ensure;
use cal_spec::SpecFault;
use std::test::Fail;

/// Each error with its number and its message.
static FAULTS: [(SpecFault, u8, &str); 15] = [
    (SpecFault::Empty, 1, "empty expression"),
    (
        SpecFault::TextTooLong,
        2,
        "expression longer than 4096 bytes",
    ),
    (SpecFault::BadWeekday, 3, "bad weekday"),
    (SpecFault::BadDate, 4, "bad date"),
    (SpecFault::BadTime, 5, "bad time"),
    (
        SpecFault::FractionalSecond,
        6,
        "fractions of a second are not supported",
    ),
    (SpecFault::NumberTooLarge, 7, "number above 9999"),
    (SpecFault::OutOfField, 8, "value out of range"),
    (SpecFault::BackwardRange, 9, "range runs backwards"),
    (SpecFault::ZeroRepeat, 10, "repetition of zero"),
    (
        SpecFault::NoRepeat,
        11,
        "repetition reaches no further value",
    ),
    (SpecFault::TooManyParts, 12, "more than 240 parts"),
    (SpecFault::StrayWord, 13, "stray word"),
    (SpecFault::UnknownShorthand, 14, "unknown shorthand"),
    (SpecFault::NoMemory, 15, ""),
];

#[test]
fn numbers_and_shown_words(rt: HostRuntime) -> Result<(), Fail> {
    for (fault, number, message) in &FAULTS {
        let shown = format!(in rt.alloc(); "{fault}")?;
        ensure(
            *fault as u8 == *number && shown.as_str() == *message,
            message,
        )?;
    }
    Ok(())
}
