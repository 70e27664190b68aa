//! Lookup of a word in a list of names.

ghost use Rattle.std.specs.Prelude.{◌≡◌, map};
ghost use Rattle.std.specs.List.{list_any};
ghost use Rattle.std.specs.Str.{bytes_eq};

/// Returns whether `word` equals one of the names. Case isn't ignored.
pub fn is_among(names: &[&[u8]], word: &[u8]) -> bool
    ensures { result ≡ list_any (bytes_eq word.now) (map (λ name. name.now) names.now) }
{
    for name in names {
        if word == *name {
            return true;
        }
    }
    false
}
