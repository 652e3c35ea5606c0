ghost use Rattle.std.specs.Prelude.{◌≡◌, [], option_map, IfOk, OnOk, OnErr};
ghost use Rattle.cov_object.specs.Files.{placed, found, AreInOrder};

use crate::file::FileCoverage;
use items::Memory;
use std::alloc::Global;
use std::collections::BTreeMap;
use std::collections::btree_map::Values;
use std::marker::Model;

/// The coverage of some files, one for each path. Contracts see it as the list of the files in the
/// byte order of their paths.
#[derive(Debug, Drop)]
pub struct CoverageMap {
    // each file under its path
    files: BTreeMap<String, FileCoverage>,
    alloc: Global,
}

impl Model for CoverageMap {
    ghost use Rattle.std.specs.Prelude.{List};
    ghost use Rattle.std.specs.Map.{values_of};
    ghost use Rattle.cov_object.specs.declared.file.FileCoverage.{FileCoverage};

    ghost Value = { List FileCoverage };

    ghost view = { λ map. values_of map.files.entries };

    ghost use Rattle.cov_object.specs.Files.{AreUnderTheirPaths};

    ghost invariant = { λ map. AreUnderTheirPaths map.files.entries };
}

impl CoverageMap {
    /// The map of no files, which takes no memory.
    pub fn new(alloc: Global) -> CoverageMap
        ensures { result ≡ [] }
    {
        CoverageMap {
            files: BTreeMap::new(alloc),
            alloc,
        }
    }

    /// Puts in the coverage of a file, in the place of the one at that path, if there is one, which
    /// is handed back. On want of memory the map stays as it was.
    pub fn insert(&mut self, file: FileCoverage) -> Result<Option<FileCoverage>, Memory>
        ensures placed { OnOk result (self.new ≡ placed file self.old) }
        ensures replaced { IfOk result (λ old. old ≡ found (file.path) self.old) }
        ensures unchanged { OnErr result (self.new ≡ self.old) }
    {
        let path = String::from_str(self.alloc, file.path.as_str())?;
        Ok(self.files.insert(path, file)?)
    }

    /// The coverage of the file at a path.
    pub fn get(&self, path: &str) -> Option<&FileCoverage>
        ensures { option_map (λ file. file.now) result ≡ found path.now self.now }
    {
        self.files.get(path)
    }

    /// The files, in the byte order of their paths.
    pub fn files(&self) -> Values<'_, String, FileCoverage>
        ensures files { result ≡ self.now }
        ensures order { AreInOrder self.now }
    {
        self.files.values()
    }
}
