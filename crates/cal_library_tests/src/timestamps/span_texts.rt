//! Timestamps that are `now`, and time spans counted from the present or from the start of 1970.

use super::{Table, expect_in_utc};
use cal_base::SpanFault;
use cal_read::StampFault::*;
use std::test::Fail;

/// Timestamps that are empty or have only blanks.
static BLANKS_ALONE: Table = Table {
    moments: "",
    refusals: &[(Empty, "|\x20|\t|\x20\t \t")],
};

/// `now` has to stand alone, in lower case.
static THE_PRESENT: Table = Table {
    moments: "\
now -> 1353665722000000|\x20now -> 1353665722000000|now\t -> 1353665722000000|\t now \t\x20 -> 1353665722000000",
    refusals: &[(BadWeekday, "NOW|Now|nows|now now|now 1:2|n ow")],
};

/// Spans counted forward and back from the present.
static AFTER_AND_BEFORE: Table = Table {
    moments: "\
+5min -> 1353666022000000|+ 5 min -> 1353666022000000|\x20+5min\x20 -> 1353666022000000|\
+1h 5us -> 1353669322000005|+0 -> 1353665722000000|-5min -> 1353665422000000|-\t5 min -> 1353665422000000|\
\t-5min\t -> 1353665422000000|-0.000001s -> 1353665721999999|5min left -> 1353666022000000|\
5min ago -> 1353665422000000|\x201h 2us left\x20 -> 1353669322000002|1h 2us\tago\t -> 1353662121999998|\
5min  \t ago -> 1353665422000000|5 left -> 1353665727000000|5 ago -> 1353665717000000|-1353665722 -> 0|\
1353665722 ago -> 0|+5904546276.999999 -> 7258211998999999|5904546276.999999s left -> 7258211998999999",
    refusals: &[(
        OutOfRange,
        "\
-1353665722.000001|1353665723 ago|+5904546277|5904546277 left|+9223372036854775807us|-9223372036854775807us|\
9223372036854775807us left|9223372036854775807us ago",
    )],
};

/// Spans counted from the start of 1970.
static COUNTED_FROM_0: Table = Table {
    moments: "\
@0 -> 0|@ 5 min -> 300000000|\x20@1.5\x20 -> 1500000|@1d -> 86400000000|@7258211998.999999 -> 7258211998999999",
    refusals: &[(OutOfRange, "@7258211999|@9223372036854775807us")],
};

/// Invalid spans after each sign, and before `left` and `ago`.
static BAD_SPANS: Table = Table {
    moments: "",
    refusals: &[
        (
            BadSpan(SpanFault::UnknownUnit),
            "+5x|-5x|@5x|5x left|5x ago|@5 ago|5 ago ago",
        ),
        (
            BadSpan(SpanFault::BadNumber),
            "\
+1..5|-1..5|@1..5|1..5 left|1..5 ago|+now|+5min ago|-5min left|++5|-@5|@-5|5min ago ago|5min left ago|\
5min ago left|today ago|now left|11:12 left|+5\u{a0}min|+5\nmin",
        ),
        (
            BadSpan(SpanFault::TooLarge),
            "\
+9223372036854775808us|-9223372036854775808us|@9223372036854775808us|9223372036854775808us left|\
9223372036854775808us ago",
        ),
        (BadSpan(SpanFault::Empty), "+|-|@|\x20+\x20|-\t"),
    ],
};

/// `left` and `ago` are whole words in lower case, with a blank before them.
static WORDS_AT_THE_END: Table = Table {
    moments: "",
    refusals: &[
        (BadWeekday, "left|ago|\x20ago\x20"),
        (
            BadDate,
            "5minago|5 minleft|5min AGO|5min Left|5min agos|5min ago.",
        ),
    ],
};

#[test]
fn present_and_spans(rt: HostRuntime) -> Result<(), Fail> {
    for table in &[
        &BLANKS_ALONE,
        &THE_PRESENT,
        &AFTER_AND_BEFORE,
        &COUNTED_FROM_0,
        &BAD_SPANS,
        &WORDS_AT_THE_END,
    ] {
        expect_in_utc(rt.alloc(), table)?;
    }
    Ok(())
}
