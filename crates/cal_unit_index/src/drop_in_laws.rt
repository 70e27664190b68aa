//! Laws of the definitions that the contracts cite. Each law is a function that does nothing and whose contract is the
//! law.

ghost use Rattle.std.specs.Prelude.{◌≡◌, ℕ, List, option_map, reverse};
ghost use Rattle.std.specs.List.{find};
ghost use Rattle.std.specs.Map.{lookup};
ghost use Rattle.std.specs.Str.{bytes_eq};
ghost use Rattle.cal_unit_index.specs.rules.DropIns.{FolderFile, by_name};

/// Of several files with the same name, `by_name` has the last. In `drop_ins`, the files go from the least important
/// folder to the most important one, so the last is the one in the most important folder.
pub fn last_of_a_name()
    ensures { (found : List FolderFile) (name : List ℕ) → lookup (bytes_eq name) (by_name found)
        ≡ option_map (λ file. file.path) (find (λ file. bytes_eq name file.name) (reverse found)) }
{}
