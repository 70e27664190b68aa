//! Removal of a prefix from a text.

ghost use Rattle.std.specs.Prelude.{◌≡◌, option_map};
ghost use Rattle.cal_machine.specs.rules.Prefix.{after_prefix};

/// Returns what follows this prefix in a text, or `None` if the text doesn't begin with it.
pub fn after_prefix<'t>(prefix: &str, text: &'t str) -> Option<&'t str>
    ensures { option_map (λ rest. rest.now) result ≡ after_prefix prefix.now text.now }
{
    text.strip_prefix(prefix)
}
