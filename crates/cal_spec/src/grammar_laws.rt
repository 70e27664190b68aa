//! Laws about which texts the parser accepts, about the errors of all others, and about the words of a text. Each law
//! is a function with an empty body, whose contract states the law.

ghost use Rattle.std.specs.Prelude.{◌≡◌, ◌↔◌, ◌⊎◌, ℕ, List, Ok, Err};
ghost use Rattle.cal_spec.specs.computed.Expr.{expr_in};
ghost use Rattle.cal_spec.specs.computed.Grammar.{fields_in};
ghost use Rattle.cal_spec.specs.rules.Fields.{Fields};
ghost use Rattle.cal_spec.specs.rules.GrammarFaultRule.{HasFault};
ghost use Rattle.cal_spec.specs.rules.GrammarRule.{IsValid};
ghost use Rattle.cal_spec.specs.rules.NormalForm.{Spells};
ghost use Rattle.cal_spec.specs.rules.WordsOfText.{AreWords};
ghost use Rattle.cal_spec.specs.declared.spec_fault.SpecFault.{SpecFault};
ghost use Rattle.cal_bytes.specs.rules.Separators.{words};

/// Each text is valid or has an error, but never both. It is valid if the grammar of systemd.time(7), Calendar Events,
/// gives it fields (`IsValid`); its error is the one that docs/GRAMMAR.md states under "Rejected expressions"
/// (`HasFault`). Neither rule is ambiguous: a text has at most one value of `Fields`, and at most one error. Parsing a
/// text returns its fields, or fails with its error. Unless memory runs out, `read_expr` returns the normal form of the
/// fields (`Spells`), or fails with the same error.
pub fn expressions_are_those_of_the_rule()
    ensures found { (text : List ℕ) (f : Fields) → fields_in text ≡ Ok f → IsValid text f }
    ensures only { (text : List ℕ) (f : Fields) → IsValid text f → fields_in text ≡ Ok f }
    ensures one { (text : List ℕ) (f g : Fields) → IsValid text f → IsValid text g → f ≡ g }
    ensures normal { (text : List ℕ) (f : Fields) → (expr_in text ≡ Ok f) ↔ Spells text f }
    ensures fault { (text : List ℕ) (e : SpecFault) → (fields_in text ≡ Err e) ↔ HasFault text e }
    ensures rejected { (text : List ℕ) (e : SpecFault) → (expr_in text ≡ Err e) ↔ HasFault text e }
    ensures one_fault { (text : List ℕ) (d e : SpecFault) → HasFault text d → HasFault text e → d ≡ e }
    ensures either { (text : List ℕ) → ((f : Fields) × IsValid text f) ⊎ ((e : SpecFault) × HasFault text e) }
    ensures never_both { (text : List ℕ) (f : Fields) (e : SpecFault) → IsValid text f → HasFault text e → ⊥ }
{}

/// The words of a text are its maximal runs of bytes that are not blanks: no word contains a blank, and blanks separate
/// the words.
#[tactic(auto, using(crate::proofs::WordsBetween::words_found, crate::proofs::WordsBetween::words_only))]
pub fn words_stand_between_blanks()
    ensures found { (text : List ℕ) → AreWords text (words text) }
    ensures only { (text : List ℕ) (ws : List (List ℕ)) → AreWords text ws → words text ≡ ws }
{}
