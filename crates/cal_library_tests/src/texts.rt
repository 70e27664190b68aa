//! Splitting off words, and trimming blanks.

use cal_base::{first_word, last_word, trim_blanks};
use std::process::Abort;

#[test]
fn words(rt: HostRuntime) {
    assert!(rt; first_word(" \tMon  09:00") == Some(("Mon", "  09:00")));
    assert!(rt; first_word(" \t").is_none());
    assert!(rt; last_word("1h  ago") == Some(("1h ", "ago")));
    assert!(rt; last_word("1h").is_none());
    assert!(rt; trim_blanks("\t a b\r ") == "a b\r");
}
