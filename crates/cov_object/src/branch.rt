ghost use Rattle.std.specs.Prelude.{◌≡◌, IfOk};
ghost use Rattle.cov_object.specs.Branch as spec;

use crate::file::PathCoverage;
use crate::location::Location;
use items::{Items, Memory, Text};
use std::alloc::Global;
use std::marker::Model;

/// A branch, and how often each of its paths was taken. Of an `if` with two paths the second never
/// stands where the whole `if` does: it is an `else` that is missing, and stands nowhere.
#[derive(Debug, Drop)]
pub struct BranchCoverage {
    kind: Text,
    location: Location,
    paths: Items<PathCoverage>,
}

impl Model for BranchCoverage {
    ghost use Rattle.cov_object.specs.Branch.{BranchCoverage, IsSettled};

    ghost Value = { BranchCoverage };

    ghost view = { λ branch. record { kind = branch.kind; location = branch.location; paths = branch.paths } };

    ghost invariant = { λ branch. IsSettled (record { kind = branch.kind; location = branch.location; paths = branch.paths }) };
}

impl BranchCoverage {
    /// A branch of this kind with these paths, in the order in which they stand. Older makers of
    /// coverage told the place of the whole `if` as that of an `else` that is missing.
    pub fn new(
        alloc: Global,
        kind: &str,
        location: Location,
        paths: Items<PathCoverage>,
    ) -> Result<BranchCoverage, Memory>
        ensures { IfOk result (λ branch. branch ≡ spec.settled (record { kind = kind.now; location = location; paths = paths })) }
    {
        let kind = Text::from_str(alloc, kind)?;
        let branch = BranchCoverage::of_settled(kind, location, Items::new(alloc));
        Ok(branch.with_paths(paths))
    }

    /// What kind of branch it is, as `if` or `switch`.
    pub fn kind(&self) -> &str
        ensures { result.now ≡ self.now.kind }
    {
        self.kind.as_str()
    }

    /// Where it stands.
    pub fn location(&self) -> Location
        ensures { result ≡ self.now.location }
    {
        self.location
    }

    /// Its paths, in the order in which they stand.
    pub fn paths(&self) -> &[PathCoverage]
        ensures paths { result.now ≡ self.now.paths }
        ensures settled { spec.IsSettled self.now }
    {
        self.paths.as_slice()
    }

    // The branch with other paths.
    pub(crate) fn with_paths(self, paths: Items<PathCoverage>) -> BranchCoverage
        ensures { result ≡ spec.settled (record { kind = self.kind; location = self.location; paths = paths }) }
    {
        let settled = settled_paths(&self, paths);
        let BranchCoverage { kind, location, .. } = self;
        BranchCoverage::of_settled(kind, location, settled)
    }

    // The branch of these parts, as they stand.
    fn of_settled(kind: Text, location: Location, paths: Items<PathCoverage>) -> BranchCoverage
        requires { spec.IsSettled (record { kind = kind; location = location; paths = paths }) }
        ensures { result ≡ record { kind = kind; location = location; paths = paths } }
    {
        BranchCoverage {
            kind,
            location,
            paths,
        }
    }
}

// The paths for a branch, as they are told today.
fn settled_paths(branch: &BranchCoverage, paths: Items<PathCoverage>) -> Items<PathCoverage>
    ensures { result ≡ spec.settled_paths branch.now.kind branch.now.location paths }
{
    if branch.kind() == "if" {
        if_paths(branch.location(), paths)
    } else {
        paths
    }
}

// The paths of an `if`: where there are two, the second is its `else`.
fn if_paths(location: Location, paths: Items<PathCoverage>) -> Items<PathCoverage>
    ensures { result ≡ spec.if_paths location paths }
{
    if paths.len() != 2 {
        return paths;
    }
    let mut paths = paths.into_vec();
    let second = else_path(location, &paths[1]);
    paths[1] = second;
    Items::from_vec(paths)
}

// The `else` of an `if`: nowhere where it stands where the whole `if` does.
fn else_path(location: Location, path: &PathCoverage) -> PathCoverage
    ensures { result ≡ spec.else_path location path.now }
{
    let place = if path.location.is_same(location) {
        Location::nowhere()
    } else {
        path.location
    };
    PathCoverage {
        location: place,
        count: path.count,
    }
}
