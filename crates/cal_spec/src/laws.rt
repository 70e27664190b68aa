//! Laws about the definitions that the contracts of this crate use. Each law is a function with an empty body, whose
//! contract states the law.

ghost use Rattle.std.specs.Prelude.{◌≡◌, ◌⊎◌, ◌<◌, ◌≤◌, ℕ, Bool, List, None, Ok, Option, length};
ghost use Rattle.std.specs.List.{AllByRecursion};
ghost use Rattle.jiff_core.specs.declared.civil.date.Date.{Date};
ghost use Rattle.cal_bytes.specs.rules.Trim.{trim_end_matches};
ghost use Rattle.cal_bytes.specs.rules.Separators.{is_blank};
ghost use Rattle.cal_spec.specs.computed.Expr.{IsExpr, expr_in, members_of};
ghost use Rattle.cal_spec.specs.rules.ExprText.{expr_text};
ghost use Rattle.cal_spec.specs.rules.Fields.{Fields};
ghost use Rattle.cal_spec.specs.computed.Grammar.{fields_in, max_text_bytes};
ghost use Rattle.cal_spec.specs.rules.GrammarRule.{IsValid};
ghost use Rattle.cal_spec.specs.rules.Match.{day_value, matches};
ghost use Rattle.cal_spec.specs.rules.Members.{sets_of};
ghost use Rattle.cal_spec.specs.computed.NormalParts.{AreNormal, AreParts, IsPart, normal_component, normal_fields, normal_parts, normal_second};
ghost use Rattle.cal_spec.specs.rules.NormalForm.{AreNormalOf, IsNormalFieldsOf, IsNormalOf, IsNormalSecondOf};
ghost use Rattle.cal_spec.specs.rules.ValidFields.{IsValidFields};
ghost use Rattle.cal_spec.specs.rules.WeekdayRunsRule.{AreWeekdayRuns};
ghost use Rattle.cal_spec.specs.rules.WeekdayRuns.{Run, runs_from};
ghost use Rattle.cal_spec.specs.rules.ZoneSuffix.{name_in, offset_said, ZoneSuffix};
ghost use Rattle.cal_spec.specs.declared.field.Field.{Field};
ghost use Rattle.cal_spec.specs.declared.field.Part.{Part};

/// If no range in a list of parts runs backwards and no step is zero, the list has exactly one normal form, which
/// `normal_parts` returns. A list that is already in normal form is its own normal form.
#[tactic(auto, using(crate::proofs::NormalFieldsLemmas::are_normal, crate::proofs::NormalFieldsLemmas::normal_fixed, crate::proofs::NormalFieldsLemmas::normal_is_of, crate::proofs::NormalFieldsLemmas::normal_only))]
pub fn one_normal_form()
    ensures some { (raw : List Part) → AllByRecursion IsPart raw → AreNormalOf raw (normal_parts raw) }
    ensures only { (raw ps : List Part) → AllByRecursion IsPart raw → AreNormalOf raw ps → ps ≡ normal_parts raw }
    ensures normal { (raw : List Part) → AllByRecursion IsPart raw → AreNormal (normal_parts raw) }
    ensures stays { (ps : List Part) → AreNormal ps → normal_parts ps ≡ ps }
{}

/// If no range in a component runs backwards and no step is zero, the component has exactly one normal form. This is
/// also true of the seconds. Their normal form differs in one case: the single part `0/1` becomes `*`.
#[tactic(auto, using(crate::proofs::NormalFieldsLemmas::component_of, crate::proofs::NormalFieldsLemmas::component_only, crate::proofs::NormalFieldsLemmas::second_normal_of, crate::proofs::NormalFieldsLemmas::second_only))]
pub fn one_normal_component()
    ensures some { (raw : Option (List Part)) → AreParts raw → IsNormalOf raw (normal_component raw) }
    ensures only { (raw normal : Option (List Part)) → AreParts raw → IsNormalOf raw normal
        → normal ≡ normal_component raw }
    ensures second { (raw : Option (List Part)) → AreParts raw → IsNormalSecondOf raw (normal_second raw) }
    ensures only_second { (raw normal : Option (List Part)) → AreParts raw → IsNormalSecondOf raw normal
        → normal ≡ normal_second raw }
{}

/// The fields of each valid text have exactly one normal form. It is valid, and normalizing it again changes nothing.
pub fn one_normal_form_of_fields()
    ensures some { (text : List ℕ) (f : Fields) → IsValid text f → IsNormalFieldsOf f (normal_fields f) }
    ensures only { (text : List ℕ) (f g : Fields) → IsValid text f → IsNormalFieldsOf f g → g ≡ normal_fields f }
    ensures valid { (text : List ℕ) (f : Fields) → IsValid text f → IsValidFields (normal_fields f) }
    ensures stays { (text : List ℕ) (f : Fields) → IsValid text f
        → normal_fields (normal_fields f) ≡ normal_fields f }
{}

/// Bringing the fields of a valid text into their normal form doesn't change which values each component matches, nor
/// on which dates the day matches. So both `*~*` and its normal form `*-*` match all days.
pub fn members_stay()
    ensures members { (text : List ℕ) (f : Fields) (field : Field) (value : ℕ) → IsValid text f
        → members_of field (sets_of (normal_fields f)) value ≡ members_of field (sets_of f) value }
    ensures days { (text : List ℕ) (f : Fields) (date : Date) → IsValid text f
        → (sets_of (normal_fields f)).day (day_value (normal_fields f).from_end date)
        ≡ (sets_of f).day (day_value f.from_end date) }
{}

/// Bringing the fields of a valid text into their normal form doesn't change which local seconds they match.
pub fn matches_stay()
    ensures { (text : List ℕ) (f : Fields) (local : ℕ) → IsValid text f
        → matches (sets_of (normal_fields f)) local ≡ matches (sets_of f) local }
{}

/// The normal form of each valid text has fewer than 4,096 bytes when it is printed.
pub fn normal_texts_are_short()
    ensures { (text : List ℕ) (f : Fields) → IsValid text f → length (expr_text (normal_fields f)) < 4_096 }
{}

/// A set of weekdays has exactly one list of runs. A run is a maximal range of consecutive days in the set.
pub fn one_list_of_runs()
    ensures some { (days : List Bool) → AreWeekdayRuns days (runs_from 0 days) }
    ensures only { (days : List Bool) (rs : List Run) → AreWeekdayRuns days rs → rs ≡ runs_from 0 days }
{}

/// Parsing the printed normal form of a valid text returns this normal form.
#[tactic(auto, using(crate::proofs::ReadBack::normal_back))]
pub fn normal_texts_read_back()
    ensures normal { (text : List ℕ) (f : Fields) → IsValid text f
        → fields_in (expr_text (normal_fields f)) ≡ Ok (normal_fields f) }
    ensures expression { (f : Fields) → IsExpr f → fields_in (expr_text f) ≡ Ok f }
{}

/// The zone of an expression is never both a name and a UTC offset.
pub fn zones_are_names_or_offsets()
    ensures { (suffix : Option ZoneSuffix) → (name_in suffix ≡ None) ⊎ (offset_said suffix ≡ None) }
{}

/// Trailing blanks don't change how a text is parsed, unless they make it longer than 4,096 bytes.
#[tactic(auto, using(crate::proofs::TrailingBlanks::same_expression))]
pub fn trailing_blanks_are_ignored()
    ensures { (text : List ℕ) → length text ≤ max_text_bytes
        → expr_in (trim_end_matches is_blank text) ≡ expr_in text }
{}
