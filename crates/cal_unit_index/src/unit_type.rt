//! The types of units whose drop-ins can be found (systemd.unit(5), Description).

ghost use Rattle.std.specs.Prelude.{◌≡◌};
ghost use Rattle.cal_unit_index.specs.rules.Folders.{suffix_of, type_folder};

/// The type of a unit, which the suffix of its name shows.
#[derive(Clone, Copy)]
pub enum UnitType {
    Timer,
    Service,
}

impl UnitType {
    /// Returns the suffix of the names of all units of this type.
    pub fn suffix(self) -> &'static str
        ensures { result.now ≡ suffix_of self }
    {
        match self {
            UnitType::Timer => ".timer",
            UnitType::Service => ".service",
        }
    }

    /// Returns the name of the drop-in folders that apply to all units of this type.
    pub(crate) fn folder(self) -> &'static str
        ensures { result.now ≡ type_folder self }
    {
        match self {
            UnitType::Timer => "timer.d",
            UnitType::Service => "service.d",
        }
    }
}
