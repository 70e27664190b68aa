//! The law that parsing a time span follows the manual. A law is a function that does nothing; its contract is a
//! statement that is proved for all arguments.

ghost use Rattle.std.specs.Prelude.{◌≡◌, ◌↔◌, ℕ, List, Result, Some};
ghost use Rattle.std.specs.List.{AllByRecursion};
ghost use Rattle.cal_span.specs.declared.time_unit.TimeUnit.{TimeUnit};
ghost use Rattle.cal_span.specs.declared.span.fault.SpanFault.{SpanFault};
ghost use Rattle.cal_span.specs.rules.UnitSpellings.{spellings_of};
ghost use Rattle.cal_span.specs.rules.SpanRule.{AreRuns, AreApart, ArePairs, HasSpanValue, Judges};
ghost use Rattle.cal_span.specs.rules.PairValue.{Piece, Pair, characters, unit_named};
ghost use Rattle.cal_span.specs.computed.SpanValue.{runs, pairs_of, pairs_in, span_of};

/// By the rule of systemd.time(7), Parsing Time Spans, every text has either exactly one value or exactly one error,
/// and `read_span` returns this value or error.
pub fn one_value()
    // A text is split wherever the kind of its characters changes, and nowhere else.
    ensures cut { (text : List ℕ) → AreRuns (characters text) (runs (characters text)) }
    ensures longest { (text : List ℕ) → AreApart (runs (characters text)) }
    ensures only_runs { (text : List ℕ) (words : List Piece)
        → AreRuns (characters text) words → AreApart words → words ≡ runs (characters text) }

    // The words form pairs in exactly one way.
    ensures paired { (words : List Piece) → ArePairs words (pairs_of words) }
    ensures only_pairs { (words : List Piece) (pairs : List Pair)
        → ArePairs words pairs → pairs ≡ pairs_of words }

    // No spelling belongs to two units.
    ensures spelled { (unit : TimeUnit)
        → AllByRecursion (λ word. unit_named word ≡ Some unit) (spellings_of unit) }

    // The value of a text is the sum of the values of its pairs. If a pair is invalid or takes the sum over the limit,
    // the result is the error of the leftmost such pair instead. Without pairs, the result is the error `Empty`.
    ensures found { (text : List ℕ) → Judges (pairs_in text) (span_of text) }
    ensures only { (pairs : List Pair) (a b : Result ℕ SpanFault)
        → Judges pairs a → Judges pairs b → a ≡ b }
    // In one sentence: a text has this value or error if and only if `span_of` returns it.
    ensures value { (text : List ℕ) (result : Result ℕ SpanFault) → (span_of text ≡ result) ↔ HasSpanValue text result }
{}
