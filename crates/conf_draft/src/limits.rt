//! The first fault in the numbers and the paths of a configuration.

ghost use Rattle.std.specs.Prelude.{◌≡◌, ◌+◌, ◌-◌, ◌^◌, min, List, ℕ, length, map, codes};
ghost use Rattle.conf_shape.specs.Fault.{Finds};
ghost use Rattle.conf_shape.specs.Path.{pointer_of};
ghost use Rattle.conf_shape.specs.Pointer.{member_of};
ghost use Rattle.conf_draft.specs.References as names;
ghost use Rattle.conf_draft.specs.Seen.{has};
ghost use Rattle.conf_draft.specs.Limits as spec;
ghost use Rattle.conf_draft.specs.Limits.{group_counts, kind_count, processor_counts, connector_counts, statement_count, pipelines_limit_fault, statements_limit_fault, path_fault, paths_fault, files_fault, limits_fault};

use crate::draft::{Connector, Draft, Exporter, GroupDraft, Processor, ProcessorKind};
use crate::names::{put, stands_in};
use conf_shape::{FaultKind, Path, PointedStop, told};
use std::alloc::Global;
use std::collections::BTreeMap;

/// How many pipelines there may be.
pub const MAX_PIPELINES: usize = 32;

/// How many statements, conditions and groups there may be together.
pub const MAX_STATEMENTS: usize = 1024;

// Sums stop at the greatest number.

fn add_groups(total: usize, groups: &[GroupDraft]) -> usize
    ensures { result ≡ min (total + group_counts groups.now) (2 ^ 64 - 1) }
{
    let mut total = total;
    for group in groups {
        total = total
            .saturating_add(1)
            .saturating_add(group.conditions.len())
            .saturating_add(group.statements.len());
    }
    total
}

fn add_kind(total: usize, kind: &ProcessorKind) -> usize
    ensures { result ≡ min (total + kind_count kind.now) (2 ^ 64 - 1) }
{
    match kind {
        ProcessorKind::Transform(transform) => add_groups(total, transform.groups.as_slice()),
        ProcessorKind::Filter(filter) => total.saturating_add(filter.conditions.len()),
        ProcessorKind::GroupByAttrs(_) => total,
    }
}

fn add_processors(total: usize, processors: &[Processor]) -> usize
    ensures { result ≡ min (total + processor_counts processors.now) (2 ^ 64 - 1) }
{
    let mut total = total;
    for processor in processors {
        total = add_kind(total, &processor.kind);
    }
    total
}

fn add_connectors(total: usize, connectors: &[Connector]) -> usize
    ensures { result ≡ min (total + connector_counts connectors.now) (2 ^ 64 - 1) }
{
    let mut total = total;
    for connector in connectors {
        total = total.saturating_add(connector.rows.len());
    }
    total
}

fn count_statements(draft: &Draft) -> usize
    ensures { result ≡ min (statement_count draft.now) (2 ^ 64 - 1) }
{
    let total = add_processors(0, draft.processors.as_slice());
    add_connectors(total, draft.connectors.as_slice())
}

fn check_statements(alloc: Global, draft: &Draft) -> Result<(), PointedStop>
    ensures { Finds result (statements_limit_fault draft.now) }
{
    if MAX_STATEMENTS < count_statements(draft) {
        return Err(told(alloc, FaultKind::TooManyStatements, &Path::top()));
    }
    Ok(())
}

fn check_count(alloc: Global, draft: &Draft) -> Result<(), PointedStop>
    ensures { Finds result (pipelines_limit_fault draft.now) }
{
    if MAX_PIPELINES < draft.pipelines.len() {
        let top = Path::top();
        let service = top.member("service");
        return Err(told(
            alloc,
            FaultKind::TooManyPipelines,
            &service.member("pipelines"),
        ));
    }
    Ok(())
}

fn check_files<'a>(
    alloc: Global,
    path: &'a Path<'a>,
    taken: &'a [&'a str],
    exporters: &'a [Exporter],
) -> Result<(), PointedStop>
    ensures { Finds result
        (paths_fault (pointer_of path.now) (map (λ name. name.now) taken.now) exporters.now) }
{
    let mut seen: BTreeMap<&str, ()> = BTreeMap::new(alloc);
    for name in taken {
        put(&mut seen, name)?;
    }
    for exporter in exporters {
        check_path(
            alloc,
            &path.member(exporter.name.as_str()),
            &seen,
            exporter.path.as_str(),
        )?;
        put(&mut seen, exporter.path.as_str())?;
    }
    Ok(())
}

// In the exporter at the place.
fn check_path<'a>(
    alloc: Global,
    path: &'a Path<'a>,
    seen: &BTreeMap<&str, ()>,
    file: &str,
) -> Result<(), PointedStop>
    ensures { (earlier : List (List ℕ)) → ((q : List ℕ) → has seen.now q ≡ names.is_among q earlier)
        → Finds result
        (path_fault (member_of (pointer_of path.now) (codes "path")) earlier file.now) }
{
    if stands_in(seen, file) {
        return Err(told(alloc, FaultKind::SamePath, &path.member("path")));
    }
    Ok(())
}

/// Looks for the first exporter whose path is one of these names, or that of an exporter before it.
pub fn check_paths(alloc: Global, draft: &Draft, taken: &[&str]) -> Result<(), PointedStop>
    ensures { Finds result (files_fault (map (λ name. name.now) taken.now) draft.now) }
{
    let top = Path::top();
    check_files(
        alloc,
        &top.member("exporters"),
        taken,
        draft.exporters.as_slice(),
    )
}

/// Looks for the first fault in the numbers and the paths.
pub(crate) fn check_limits(alloc: Global, draft: &Draft) -> Result<(), PointedStop>
    ensures { Finds result (limits_fault draft.now) }
{
    check_count(alloc, draft)?;
    check_statements(alloc, draft)?;
    check_paths(alloc, draft, &[])
}
