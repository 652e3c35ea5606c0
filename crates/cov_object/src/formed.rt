// What is true of a coverage by the types of its parts, as a fact about its value. The functions work out
// nothing: they look at each part, since a part's type says what holds of it only where it is looked at.
ghost use Rattle.std.specs.Prelude.{IsUtf8, IfSome};
ghost use Rattle.cov_object.specs.SourceMapText.{IsSourceMap};
ghost use Rattle.cov_object.specs.private.Formed.{IsPlace, IsLocated, IsStatement, IsFunction, ArePaths, IsBranch, EachThing, IsFormed};

use crate::branch::BranchCoverage;
use crate::file::{FileCoverage, FunctionCoverage, PathCoverage, StatementCoverage};
use crate::location::{Location, Position};
use crate::source_map_text::SourceMapText;
use items::Text;

// What is counted, and true of it by its type.
pub(crate) trait Formed {
    ghost formed: { Self → Type 0 };

    fn look(&self)
        ensures { formed self.now };
}

impl Formed for StatementCoverage {
    ghost formed = { IsStatement };

    fn look(&self) {
        look_at_location(self.location);
        let _count = self.count.get();
    }
}

impl Formed for FunctionCoverage {
    ghost formed = { IsFunction };

    fn look(&self) {
        let _name = self.name.as_str();
        look_at_location(self.declaration);
        look_at_location(self.location);
        let _count = self.count.get();
    }
}

impl Formed for BranchCoverage {
    ghost formed = { IsBranch };

    fn look(&self) {
        let _kind = self.kind();
        look_at_location(self.location());
        look_at_paths(self.paths());
    }
}

fn look_at_place(place: Option<Position>)
    ensures { IsPlace place }
{
    if let Some(place) = place {
        let _line = place.line.get();
    }
}

fn look_at_location(location: Location)
    ensures { IsLocated location }
{
    look_at_place(location.start);
    look_at_place(location.end);
}

fn look_at_paths(paths: &[PathCoverage])
    ensures { ArePaths paths.now }
{
    for path in paths {
        look_at_location(path.location);
        let _count = path.count.get();
    }
}

fn look_at_things<T: Formed>(things: &[(u64, T)])
    ensures { EachThing T.formed things.now }
{
    for (_id, thing) in things {
        thing.look();
    }
}

fn look_at_hash(hash: &Option<Text>)
    ensures { IfSome hash.now IsUtf8 }
{
    if let Some(hash) = hash {
        let _text = hash.as_str();
    }
}

fn look_at_map(map: &Option<SourceMapText>)
    ensures { IfSome map.now (λ text. IsSourceMap text × IsUtf8 text) }
{
    if let Some(map) = map {
        let _text = map.as_str();
    }
}

// What is true of a file's coverage.
pub(crate) fn look_at_file(file: &FileCoverage)
    ensures { IsFormed file.now }
{
    let _path = file.path.as_str();
    look_at_hash(&file.hash);
    look_at_map(&file.input_source_map);
    look_at_things(file.statements.as_slice());
    look_at_things(file.functions.as_slice());
    look_at_things(file.branches.as_slice());
}
