//! An index of a search path: the names in its folders, where each name leads, and all aliases. A stem is a unit's name
//! without its suffix `.timer`.

ghost use Rattle.std.specs.Prelude.{◌≡◌, ℕ, List, IfOk, map, option_map, string_bytes};
ghost use Rattle.cal_machine.specs.rules.Machine.{Machine};
ghost use Rattle.cal_unit_index.specs.rules.Destinations.{is_among, shown_destination};
ghost use Rattle.cal_unit_index.specs.rules.Index.{IsIndexOf, IsIndexUpTo, destination_of, unit_stems_in};

use crate::aliases::{Alias, find_aliases, find_unit_names};
use crate::destinations::Destination;
use crate::fault::UnitFault;
use crate::name_sets::has_name;
use crate::read_folder::read_folder;
use cal_machine::Tree;
use std::alloc::{AllocError, Global};
use std::collections::{BTreeMap, BTreeSet};

/// An index of what the folders of a search path have.
#[derive(Drop)]
pub struct UnitIndex {
    pub(crate) folders: Vec<SearchFolder>,
    pub(crate) destinations: BTreeMap<String, Destination>,
    pub(crate) aliases: Vec<Alias>,
    pub(crate) unreadable: Vec<UnitFault>,
}

/// A folder of the search path.
#[derive(Drop)]
pub struct SearchFolder {
    pub path: String,
    pub(crate) names: BTreeSet<String>,
}

impl SearchFolder {
    /// Returns whether the folder has something with this name. Returns `false` if the folder can't be read.
    pub fn has(&self, name: &str) -> bool
        ensures { result ≡ is_among (map string_bytes self.now.names.keys) name.now }
    {
        has_name(&self.names, name)
    }
}

impl UnitIndex {
    /// Reads the folders of a search path, which has the most important folder first. Each name of a timer in them is
    /// examined once. What can't be read is in [`UnitIndex::unreadable`].
    ///
    /// Fails only if allocation fails.
    pub fn read<T: Tree>(
        alloc: Global,
        tree: &mut T,
        search_path: &[String],
    ) -> Result<UnitIndex, AllocError>
        ensures known { IfOk result (λ index. (machine : Machine) → T.shows tree.new machine
            → IsIndexOf machine (map string_bytes search_path.now) index) }
        ensures grows { (machine : Machine) → T.shows tree.new machine → T.shows tree.old machine }
    {
        let mut index = read_folders(alloc, tree, search_path)?;
        index.aliases = find_aliases(alloc, &index)?;
        Ok(index)
    }

    /// Returns the stems in the search path that aren't those of templates, and that lead to a file or an alias. They
    /// are sorted by their bytes.
    ///
    /// Fails only if allocation fails.
    pub fn unit_names(&self, alloc: Global) -> Result<BTreeSet<String>, AllocError>
        ensures known { IfOk result (λ names. (machine : Machine) (search_path : List (List ℕ)) → IsIndexOf machine search_path self.now
            → map string_bytes names.keys ≡ unit_stems_in machine search_path) }
    {
        find_unit_names(alloc, self)
    }

    /// Returns the paths that can't be read, in the order of the search path: folders of the search path and, in those
    /// that can be read, files of timers and links that can't be followed. Nothing else is missing from the index.
    pub fn unreadable(&self) -> &[UnitFault]
        ensures { result.now ≡ self.now.unreadable.items }
    {
        self.unreadable.as_slice()
    }

    /// Returns the folders of the search path, the most important first.
    pub fn folders(&self) -> &[SearchFolder]
        ensures { result.now ≡ self.now.folders.items }
    {
        self.folders.as_slice()
    }

    /// Returns where a stem leads. Returns `None` if it leads nowhere.
    pub(crate) fn destination(&self, stem: &str) -> Option<&Destination>
        ensures { option_map (λ destination. shown_destination destination.now) result ≡ destination_of self.now stem.now }
    {
        self.destinations.get(stem)
    }
}

/// Reads the folders of a search path, without looking for aliases.
fn read_folders<T: Tree>(
    alloc: Global,
    tree: &mut T,
    search_path: &[String],
) -> Result<UnitIndex, AllocError>
    ensures known { IfOk result (λ index. (machine : Machine) → T.shows tree.new machine
        → IsIndexUpTo machine (map string_bytes search_path.now) (map string_bytes search_path.now) index) }
    ensures grows { (machine : Machine) → T.shows tree.new machine → T.shows tree.old machine }
{
    let mut index = UnitIndex {
        folders: Vec::new(alloc),
        destinations: BTreeMap::new(alloc),
        aliases: Vec::new(alloc),
        unreadable: Vec::new(alloc),
    };
    for folder in search_path {
        read_folder(alloc, tree, search_path, folder.as_str(), &mut index)?;
    }
    Ok(index)
}
