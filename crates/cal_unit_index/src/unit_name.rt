//! Names of units (systemd.unit(5), Description).

ghost use Rattle.std.specs.Prelude.{◌≡◌, map, option_map};
ghost use Rattle.std.specs.List.{list_all, list_any};
ghost use Rattle.cal_unit_index.specs.rules.UnitName.{file_stem, has_unit_suffix, instance_of, is_before_suffix, is_name_byte, is_stem, is_template, is_unit_name, listed_stem, may_be_linked, may_lead, stem_base, template_of, unit_kind_of, unit_stem, without_suffix};

/// The suffix of a timer's name.
const SUFFIX: &str = ".timer";

/// The suffixes of units.
const UNIT_SUFFIXES: [&[u8]; 11] = [
    b".service",
    b".socket",
    b".device",
    b".mount",
    b".automount",
    b".swap",
    b".target",
    b".path",
    b".timer",
    b".slice",
    b".scope",
];

/// The maximum length of a unit's name with its suffix, in bytes.
const MAX_NAME: usize = 255;

/// What a unit's name stands for.
#[derive(Clone, Copy)]
pub enum UnitKind {
    /// A unit of its own, such as `backup.timer`.
    Plain,
    /// A template, such as `backup@.timer`. It isn't a unit: it has to be instantiated.
    Template,
    /// An instance of a template, such as `backup@home.timer`.
    Instance,
}

/// Returns the stem of the timer unit that `name` stands for: the name without the suffix `.timer`. A name without this
/// suffix is itself the stem of a timer.
///
/// Returns `None` if the name isn't valid: the stem is empty, begins with `@`, or has a byte that is neither a letter
/// nor a digit nor one of `:-_.\@`, or the stem with the suffix has more than 255 bytes.
#[tactic(auto, unfolding(crate::specs::rules::UnitName::unit_stem))]
pub fn unit_stem(name: &str) -> Option<&str>
    ensures { option_map (λ stem. stem.now) result ≡ unit_stem name.now }
{
    let stem = without_suffix(name);
    if is_stem(stem) { Some(stem) } else { None }
}

/// Returns whether `name` is the name of a unit or a template: it ends in the suffix of a unit and has something before
/// it, doesn't begin with `@`, has only ASCII letters, digits and `:-_.\@`, and has at most 255 bytes.
#[tactic(auto, unfolding(crate::specs::rules::UnitName::is_unit_name))]
pub fn is_unit_name(name: &str) -> bool
    ensures { result ≡ is_unit_name name.now }
{
    name.len() <= MAX_NAME
        && !stem_base(name).is_empty()
        && has_valid_bytes(name.as_bytes())
        && has_unit_suffix(name.as_bytes())
}

/// Returns whether the name ends in the suffix of a unit, and has something before it.
#[tactic(auto, unfolding(crate::specs::rules::UnitName::has_unit_suffix))]
pub fn has_unit_suffix(name: &[u8]) -> bool
    ensures { result ≡ has_unit_suffix name.now }
{
    has_any_suffix(&UNIT_SUFFIXES, name)
}

/// Returns the stem of a timer from the name of its file. Returns `None` if the name doesn't end in `.timer` or isn't a
/// valid name.
#[tactic(auto, unfolding(crate::specs::rules::UnitName::file_stem))]
pub(crate) fn file_stem(name: &str) -> Option<&str>
    ensures { option_map (λ stem. stem.now) result ≡ file_stem name.now }
{
    if !name.as_bytes().ends_with(b".timer") {
        return None;
    }
    unit_stem(name)
}

/// Returns the stem of the timer to which a file with this name in a folder of the search path can belong. Returns
/// `None` for a hidden file, or if the name isn't the valid name of a timer.
#[tactic(auto, unfolding(crate::specs::rules::UnitName::listed_stem))]
pub(crate) fn listed_stem(name: &str) -> Option<&str>
    ensures { option_map (λ stem. stem.now) result ≡ listed_stem name.now }
{
    if name.as_bytes().starts_with(b".") {
        return None;
    }
    file_stem(name)
}

/// Returns what the name of a unit with this stem stands for.
#[tactic(auto, unfolding(crate::specs::rules::UnitName::unit_kind_of))]
pub fn unit_kind_of(stem: &str) -> UnitKind
    ensures { result ≡ unit_kind_of stem.now }
{
    let base = stem_base(stem);
    if base.len() == stem.len() {
        return UnitKind::Plain;
    }
    if base.len() + 1 == stem.len() {
        return UnitKind::Template;
    }
    UnitKind::Instance
}

pub(crate) fn is_template(stem: &str) -> bool
    ensures { result ≡ is_template stem.now }
{
    matches!(unit_kind_of(stem), UnitKind::Template)
}

/// Returns whether a link with the stem `stem` can be an alias of the timer with the stem `other`. The two must differ,
/// and both must be plain names or instances with the same instance name, or `other` must be a template and `stem` a
/// template or an instance.
#[tactic(auto, unfolding(crate::specs::rules::UnitName::may_lead))]
pub(crate) fn may_lead(stem: &str, other: &str) -> bool
    ensures { result ≡ may_lead stem.now other.now }
{
    let is_same = instance_of(stem) == instance_of(other);
    other != stem && may_be_linked(unit_kind_of(stem), unit_kind_of(other), is_same)
}

/// Returns whether a link whose name is of the kind `kind` can be an alias of a name of the kind `other`. `is_same`
/// says whether both names have the same instance name.
fn may_be_linked(kind: UnitKind, other: UnitKind, is_same: bool) -> bool
    ensures { result ≡ may_be_linked kind other is_same }
{
    match (kind, other) {
        (UnitKind::Plain, UnitKind::Plain)
        | (UnitKind::Template | UnitKind::Instance, UnitKind::Template) => true,
        (UnitKind::Instance, UnitKind::Instance) => is_same,
        _ => false,
    }
}

/// Returns the instance name in a stem: the part after its first `@`. It is empty unless the stem is that of an
/// instance.
#[tactic(auto, unfolding(crate::specs::rules::UnitName::instance_of))]
pub(crate) fn instance_of(stem: &str) -> &str
    ensures { result.now ≡ instance_of stem.now }
{
    match stem.split_once('@') {
        Some((_, instance)) => instance,
        None => "",
    }
}

/// Returns the stem of an instance's template, such as `backup@` for `backup@home`. Returns `None` if the stem isn't
/// that of an instance.
#[tactic(auto, unfolding(crate::specs::rules::UnitName::template_of))]
pub(crate) fn template_of(stem: &str) -> Option<&str>
    ensures { option_map (λ template. template.now) result ≡ template_of stem.now }
{
    let base = stem_base(stem);
    if base.len() + 1 < stem.len() {
        return Some(&stem[..base.len() + 1]);
    }
    None
}

/// Returns the part of a name or a stem before its first `@`, or all of it if it has no `@`.
pub fn stem_base(stem: &str) -> &str
    ensures { result.now ≡ stem_base stem.now }
{
    match stem.split_once('@') {
        Some((base, _)) => base,
        None => stem,
    }
}

/// Returns the name without the suffix `.timer`, or the name itself if it doesn't have this suffix.
#[tactic(auto, unfolding(crate::specs::rules::UnitName::without_suffix))]
pub fn without_suffix(name: &str) -> &str
    ensures { result.now ≡ without_suffix name.now }
{
    match name.strip_suffix(SUFFIX) {
        Some(stem) => stem,
        None => name,
    }
}

#[tactic(auto, unfolding(crate::specs::rules::UnitName::is_stem))]
pub(crate) fn is_stem(stem: &str) -> bool
    ensures { result ≡ is_stem stem.now }
{
    stem.len() <= MAX_NAME - SUFFIX.len()
        && !stem_base(stem).is_empty()
        && has_valid_bytes(stem.as_bytes())
}

fn has_valid_bytes(stem: &[u8]) -> bool
    ensures { result ≡ list_all is_name_byte stem.now }
{
    stem.iter().all(|byte| is_name_byte(*byte))
}

fn is_name_byte(byte: u8) -> bool
    ensures { result ≡ is_name_byte byte }
{
    byte.is_ascii_alphanumeric() || b":-_.\\@".contains(&byte)
}

/// Returns whether the name ends in one of these suffixes, and has something before it.
fn has_any_suffix(suffixes: &[&[u8]], name: &[u8]) -> bool
    ensures { result ≡ list_any (is_before_suffix name.now) (map (λ suffix. suffix.now) suffixes.now) }
{
    for suffix in suffixes {
        if suffix.len() < name.len() && name.ends_with(suffix) {
            return true;
        }
    }
    false
}
