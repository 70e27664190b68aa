//! Laws about which texts the parser accepts. Each law is a function with an empty body, whose contract states the law.

ghost use Rattle.std.specs.Prelude.{◌≡◌, ℕ, List, Ok};
ghost use Rattle.cal_cron.specs.computed.Items.{field_in};
ghost use Rattle.cal_cron.specs.declared.cron_field.CronField.{CronField};
ghost use Rattle.cal_cron.specs.declared.items.CronRange.{CronRange};
ghost use Rattle.cal_cron.specs.rules.CronGrammar.{IsField};

/// Parsing a field succeeds if and only if the grammar of crontab(5) allows the text.
#[tactic(auto, using(crate::proofs::FieldRule::field_found, crate::proofs::FieldRule::field_only))]
pub fn fields_are_those_of_the_rule()
    ensures found { (field : CronField) (text : List ℕ) (rs : List CronRange) → field_in field text ≡ Ok rs
        → IsField field text rs }
    ensures only { (field : CronField) (text : List ℕ) (rs : List CronRange) → IsField field text rs
        → field_in field text ≡ Ok rs }
{}
