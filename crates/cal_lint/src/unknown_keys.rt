//! Unknown keys: those that neither systemd 252 nor this project knows in a section of a timer.

ghost use Rattle.std.specs.Prelude.{◌≡◌, ◌-◌, codes, drop, length, nat_eq, take};
ghost use Rattle.std.specs.List.{starts_with};
ghost use Rattle.std.specs.Str.{str_eq_ignore_ascii_case};
ghost use Rattle.cal_lint.specs.rules.UnknownKeys.{is_install_key, is_known_key, is_like_exception_key, is_timer_key, is_unit_key, is_unknown_key, may_be_exception_key};

use crate::sections::Section;
use cal_bytes::is_among;
use cal_timer::kind_of;

/// The keys of the section `Unit` that systemd 252 knows, in the order in which `systemd --dump-configuration-items`
/// prints them.
const UNIT_KEYS: [&[u8]; 113] = [
    b"Description",
    b"Documentation",
    b"SourcePath",
    b"Requires",
    b"Requisite",
    b"Wants",
    b"BindsTo",
    b"BindTo",
    b"Upholds",
    b"Conflicts",
    b"Before",
    b"After",
    b"OnSuccess",
    b"OnFailure",
    b"PropagatesReloadTo",
    b"PropagateReloadTo",
    b"ReloadPropagatedFrom",
    b"PropagateReloadFrom",
    b"PropagatesStopTo",
    b"StopPropagatedFrom",
    b"PartOf",
    b"JoinsNamespaceOf",
    b"RequiresOverridable",
    b"RequisiteOverridable",
    b"RequiresMountsFor",
    b"StopWhenUnneeded",
    b"RefuseManualStart",
    b"RefuseManualStop",
    b"AllowIsolate",
    b"DefaultDependencies",
    b"OnSuccessJobMode",
    b"OnFailureJobMode",
    b"OnFailureIsolate",
    b"IgnoreOnIsolate",
    b"JobTimeoutSec",
    b"JobRunningTimeoutSec",
    b"JobTimeoutAction",
    b"JobTimeoutRebootArgument",
    b"StartLimitIntervalSec",
    b"StartLimitInterval",
    b"StartLimitBurst",
    b"StartLimitAction",
    b"FailureAction",
    b"SuccessAction",
    b"FailureActionExitStatus",
    b"SuccessActionExitStatus",
    b"RebootArgument",
    b"ConditionPathExists",
    b"ConditionPathExistsGlob",
    b"ConditionPathIsDirectory",
    b"ConditionPathIsSymbolicLink",
    b"ConditionPathIsMountPoint",
    b"ConditionPathIsReadWrite",
    b"ConditionPathIsEncrypted",
    b"ConditionDirectoryNotEmpty",
    b"ConditionFileNotEmpty",
    b"ConditionFileIsExecutable",
    b"ConditionNeedsUpdate",
    b"ConditionFirstBoot",
    b"ConditionArchitecture",
    b"ConditionFirmware",
    b"ConditionVirtualization",
    b"ConditionHost",
    b"ConditionKernelCommandLine",
    b"ConditionKernelVersion",
    b"ConditionCredential",
    b"ConditionSecurity",
    b"ConditionCapability",
    b"ConditionACPower",
    b"ConditionMemory",
    b"ConditionCPUFeature",
    b"ConditionCPUs",
    b"ConditionEnvironment",
    b"ConditionUser",
    b"ConditionGroup",
    b"ConditionControlGroupController",
    b"ConditionOSRelease",
    b"ConditionMemoryPressure",
    b"ConditionCPUPressure",
    b"ConditionIOPressure",
    b"AssertPathExists",
    b"AssertPathExistsGlob",
    b"AssertPathIsDirectory",
    b"AssertPathIsSymbolicLink",
    b"AssertPathIsMountPoint",
    b"AssertPathIsReadWrite",
    b"AssertPathIsEncrypted",
    b"AssertDirectoryNotEmpty",
    b"AssertFileNotEmpty",
    b"AssertFileIsExecutable",
    b"AssertNeedsUpdate",
    b"AssertFirstBoot",
    b"AssertArchitecture",
    b"AssertVirtualization",
    b"AssertHost",
    b"AssertKernelCommandLine",
    b"AssertKernelVersion",
    b"AssertCredential",
    b"AssertSecurity",
    b"AssertCapability",
    b"AssertACPower",
    b"AssertMemory",
    b"AssertCPUFeature",
    b"AssertCPUs",
    b"AssertEnvironment",
    b"AssertUser",
    b"AssertGroup",
    b"AssertControlGroupController",
    b"AssertOSRelease",
    b"AssertMemoryPressure",
    b"AssertCPUPressure",
    b"AssertIOPressure",
    b"CollectMode",
];

/// The keys of the section `Install` (systemd.unit(5), [Install] Section Options).
const INSTALL_KEYS: [&[u8]; 5] = [
    b"Alias",
    b"WantedBy",
    b"RequiredBy",
    b"Also",
    b"DefaultInstance",
];

/// Returns whether neither systemd 252 nor this project knows the key in this section.
///
/// systemd ignores keys that begin with `X-` (systemd.unit(5)), so they don't count as unknown, unless they are in the
/// section `Timer` and look like a misspelled `X-ExceptOnCalendar`: they begin with `X-Except` or end with
/// `OnCalendar`, ignoring case.
pub(crate) fn is_unknown_key(section: Section, key: &str) -> bool
    ensures { result ≡ is_unknown_key section key.now }
{
    if is_known_key(section, key) {
        return false;
    }
    !key.as_bytes().starts_with(b"X-") || may_be_exception_key(section, key)
}

fn is_known_key(section: Section, key: &str) -> bool
    ensures { result ≡ is_known_key section key.now }
{
    match section {
        Section::Unit => is_unit_key(key.as_bytes()),
        Section::Timer => is_timer_key(key),
        Section::Install => is_install_key(key),
    }
}

fn is_unit_key(key: &[u8]) -> bool
    ensures { result ≡ is_unit_key key.now }
{
    is_among(&UNIT_KEYS, key)
}

fn is_install_key(key: &str) -> bool
    ensures { result ≡ is_install_key key.now }
{
    is_among(&INSTALL_KEYS, key.as_bytes())
}

fn is_timer_key(key: &str) -> bool
    ensures { result ≡ is_timer_key key.now }
{
    kind_of(key).is_some()
}

/// Returns whether a key in this section may be a misspelled `X-ExceptOnCalendar`.
fn may_be_exception_key(section: Section, key: &str) -> bool
    ensures { result ≡ may_be_exception_key section key.now }
{
    match section {
        Section::Timer => is_like_exception_key(key.as_bytes()),
        Section::Unit | Section::Install => false,
    }
}

/// Returns whether a key begins with `X-Except` or ends with `OnCalendar`, ignoring case.
fn is_like_exception_key(key: &[u8]) -> bool
    ensures { result ≡ is_like_exception_key key.now }
{
    let start = key.split_at(key.len().min(8)).0;
    let end = key.split_at(key.len().saturating_sub(10)).1;
    start.eq_ignore_ascii_case(b"X-Except") || end.eq_ignore_ascii_case(b"OnCalendar")
}
