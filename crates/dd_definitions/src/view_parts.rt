ghost use Rattle.std.specs.Prelude.{◌≡◌};
ghost use Rattle.std.specs.List.{list_all};
ghost use Rattle.dd_definitions.specs.Views.{is_same_alias, is_same_output, is_of_source, are_sources_formed, are_outputs_formed, is_view_formed};

use crate::distinct::{Distinct, are_distinct};
use dd_names::{List, Name, ObjName, TryCopy, both};
use std::alloc::AllocError;

/// A table or view that a view reads, under a name of its own in the query (MySQL 8.0 Reference Manual, 13.1.23).
#[derive(Drop)]
pub struct ViewSource {
    pub object: ObjName,
    pub alias: Name,
}

/// A column that a view gives.
#[derive(Drop)]
pub struct ViewColumn {
    /// The place among the sources, from 0, of the one that it is taken from.
    pub source: u32,
    /// The name in that source.
    pub column: Name,
    /// The name in the view.
    pub output: Name,
}

/// The parts of a view, which needn't fit together.
#[derive(Drop)]
pub struct ViewParts {
    pub name: ObjName,
    pub sources: List<ViewSource>,
    pub outputs: List<ViewColumn>,
}

impl TryCopy for ViewSource {
    fn copy(&self) -> Result<ViewSource, AllocError> {
        match both(self.object.copy(), self.alias.copy()) {
            Ok((object, alias)) => Ok(ViewSource { object, alias }),
            Err(error) => Err(error),
        }
    }
}

impl TryCopy for ViewColumn {
    fn copy(&self) -> Result<ViewColumn, AllocError> {
        match both(self.column.copy(), self.output.copy()) {
            Ok((column, output)) => Ok(ViewColumn {
                source: self.source,
                column,
                output,
            }),
            Err(error) => Err(error),
        }
    }
}

impl TryCopy for ViewParts {
    fn copy(&self) -> Result<ViewParts, AllocError> {
        let listed = both(self.sources.copy(), self.outputs.copy());
        match both(self.name.copy(), listed) {
            Ok((name, (sources, outputs))) => Ok(ViewParts {
                name,
                sources,
                outputs,
            }),
            Err(error) => Err(error),
        }
    }
}

impl Distinct for ViewSource {
    ghost use Rattle.dd_definitions.specs.Views.{is_same_alias};

    ghost is_like = { is_same_alias };

    fn is_like(&self, other: &ViewSource) -> bool {
        self.alias == other.alias
    }
}

impl Distinct for ViewColumn {
    ghost use Rattle.dd_definitions.specs.Views.{is_same_output};

    ghost is_like = { is_same_output };

    fn is_like(&self, other: &ViewColumn) -> bool {
        self.output.same(&other.output)
    }
}

/// Whether the parts fit together.
#[tactic(auto, unfolding(crate::specs::Views::is_view_formed))]
pub(crate) fn is_view_formed(parts: &ViewParts) -> bool
    ensures { result ≡ is_view_formed parts.now }
{
    are_sources_formed(parts.sources.as_slice())
        && are_outputs_formed(parts.sources.len(), parts.outputs.as_slice())
}

#[tactic(auto, unfolding(crate::specs::Views::are_sources_formed))]
fn are_sources_formed(sources: &[ViewSource]) -> bool
    ensures { result ≡ are_sources_formed sources.now }
{
    1 <= sources.len() && sources.len() <= 1024 && are_distinct(sources)
}

#[tactic(auto, unfolding(crate::specs::Views::are_outputs_formed))]
fn are_outputs_formed(sources: usize, outputs: &[ViewColumn]) -> bool
    ensures { result ≡ are_outputs_formed sources outputs.now }
{
    1 <= outputs.len()
        && outputs.len() <= 1017
        && are_distinct(outputs)
        && are_of_sources(sources, outputs)
}

fn are_of_sources(sources: usize, outputs: &[ViewColumn]) -> bool
    ensures { result ≡ list_all (is_of_source sources) outputs.now }
{
    outputs
        .iter()
        .all(|output| (output.source as usize) < sources)
}
