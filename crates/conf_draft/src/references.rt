//! The first fault in the names that pipelines and connectors cite.

ghost use Rattle.std.specs.Prelude.{◌≡◌, List, ℕ, [], codes};
ghost use Rattle.std.specs.List.{list_any};
ghost use Rattle.conf_shape.specs.Fault.{Finds};
ghost use Rattle.conf_shape.specs.Path.{pointer_of};
ghost use Rattle.conf_shape.specs.Pointer.{member_of};
ghost use Rattle.conf_draft.specs.References as spec;
ghost use Rattle.conf_draft.specs.References.{pipeline_fault, receivers_fault, exporters_fault, pipelines_fault, row_fault, rows_fault, routed_fault, routes_fault, unused_fault, connector_fault, connectors_fault, unfed_fault, references_fault};

use crate::draft::{Connector, Draft, Pipeline, RowDraft};
use crate::names::{Role, check_filled, check_names, is_among};
use conf_shape::{FaultKind, Path, PointedStop, told};
use pdata_value::Text;
use std::alloc::Global;

fn check_receivers<'a>(
    alloc: Global,
    draft: &Draft,
    path: &'a Path<'a>,
    names: &'a [Text],
) -> Result<(), PointedStop>
    ensures { Finds result (receivers_fault draft.now (pointer_of path.now) names.now) }
{
    check_filled(alloc, FaultKind::NoReceiver, path, names)?;
    check_names(alloc, draft, Role::AsReceiver, path, names)
}

fn check_exporters<'a>(
    alloc: Global,
    draft: &Draft,
    path: &'a Path<'a>,
    names: &'a [Text],
) -> Result<(), PointedStop>
    ensures { Finds result (exporters_fault draft.now (pointer_of path.now) names.now) }
{
    check_filled(alloc, FaultKind::NoExporter, path, names)?;
    check_names(alloc, draft, Role::AsExporter, path, names)
}

fn check_pipeline<'a>(
    alloc: Global,
    draft: &Draft,
    path: &'a Path<'a>,
    pipeline: &'a Pipeline,
) -> Result<(), PointedStop>
    ensures { Finds result (pipeline_fault draft.now (pointer_of path.now) pipeline.now) }
{
    let receivers = path.member("receivers");
    check_receivers(alloc, draft, &receivers, pipeline.receivers.as_slice())?;
    let processors = path.member("processors");
    let names = pipeline.processors.as_slice();
    check_names(alloc, draft, Role::AsProcessor, &processors, names)?;
    let exporters = path.member("exporters");
    check_exporters(alloc, draft, &exporters, pipeline.exporters.as_slice())
}

fn check_pipelines<'a>(
    alloc: Global,
    draft: &Draft,
    path: &'a Path<'a>,
    pipelines: &'a [Pipeline],
) -> Result<(), PointedStop>
    ensures { Finds result (pipelines_fault draft.now (pointer_of path.now) pipelines.now) }
{
    for pipeline in pipelines {
        check_pipeline(alloc, draft, &path.member(pipeline.name.as_str()), pipeline)?;
    }
    Ok(())
}

fn check_routed<'a>(
    alloc: Global,
    draft: &Draft,
    connector: &str,
    path: &'a Path<'a>,
    names: &'a [Text],
) -> Result<(), PointedStop>
    ensures { Finds result (routed_fault draft.now connector.now (pointer_of path.now) names.now) }
{
    check_names(alloc, draft, Role::RoutedBy(connector), path, names)
}

fn check_row<'a>(
    alloc: Global,
    draft: &Draft,
    connector: &str,
    path: &'a Path<'a>,
    names: &'a [Text],
) -> Result<(), PointedStop>
    ensures { Finds result (row_fault draft.now connector.now (pointer_of path.now) names.now) }
{
    check_filled(alloc, FaultKind::NoExporter, path, names)?;
    check_routed(alloc, draft, connector, path, names)
}

fn check_rows<'a>(
    alloc: Global,
    draft: &Draft,
    connector: &str,
    path: &'a Path<'a>,
    rows: &'a [RowDraft],
) -> Result<(), PointedStop>
    ensures { Finds result (rows_fault draft.now connector.now (pointer_of path.now) 0 rows.now) }
{
    for (index, row) in rows.iter().enumerate() {
        let here = path.element(index);
        let pipelines = here.member("pipelines");
        check_row(
            alloc,
            draft,
            connector,
            &pipelines,
            row.pipelines.as_slice(),
        )?;
    }
    Ok(())
}

fn is_exported_to(pipelines: &[Pipeline], connector: &str) -> bool
    ensures { result ≡ list_any (λ p. spec.is_among connector.now p.exporters) pipelines.now }
{
    for pipeline in pipelines {
        if is_among(connector, pipeline.exporters.as_slice()) {
            return true;
        }
    }
    false
}

fn is_received_from(pipelines: &[Pipeline], connector: &str) -> bool
    ensures { result ≡ list_any (λ p. spec.is_among connector.now p.receivers) pipelines.now }
{
    for pipeline in pipelines {
        if is_among(connector, pipeline.receivers.as_slice()) {
            return true;
        }
    }
    false
}

fn check_used<'a>(
    alloc: Global,
    draft: &Draft,
    path: &'a Path<'a>,
    connector: &str,
) -> Result<(), PointedStop>
    ensures { Finds result (unused_fault draft.now (pointer_of path.now) connector.now) }
{
    let pipelines = draft.pipelines.as_slice();
    if is_exported_to(pipelines, connector) && is_received_from(pipelines, connector) {
        return Ok(());
    }
    Err(told(alloc, FaultKind::UnusedConnector, path))
}

fn check_routes<'a>(
    alloc: Global,
    draft: &Draft,
    path: &'a Path<'a>,
    connector: &'a Connector,
) -> Result<(), PointedStop>
    ensures { Finds result (routes_fault draft.now (pointer_of path.now) connector.now) }
{
    let name = connector.name.as_str();
    let table = path.member("table");
    check_rows(alloc, draft, name, &table, connector.rows.as_slice())?;
    let defaults = path.member("default_pipelines");
    check_routed(alloc, draft, name, &defaults, connector.defaults.as_slice())
}

fn check_connector<'a>(
    alloc: Global,
    draft: &Draft,
    path: &'a Path<'a>,
    connector: &'a Connector,
) -> Result<(), PointedStop>
    ensures { Finds result (connector_fault draft.now (pointer_of path.now) connector.now) }
{
    check_routes(alloc, draft, path, connector)?;
    check_used(alloc, draft, path, connector.name.as_str())
}

fn check_connectors<'a>(
    alloc: Global,
    draft: &Draft,
    path: &'a Path<'a>,
    connectors: &'a [Connector],
) -> Result<(), PointedStop>
    ensures { Finds result (connectors_fault draft.now (pointer_of path.now) connectors.now) }
{
    for connector in connectors {
        check_connector(
            alloc,
            draft,
            &path.member(connector.name.as_str()),
            connector,
        )?;
    }
    Ok(())
}

fn has_receiver(draft: &Draft, names: &[Text]) -> bool
    ensures { result ≡ list_any (λ name. spec.is_among name draft.now.receivers) names.now }
{
    for name in names {
        if is_among(name.as_str(), draft.receivers.as_slice()) {
            return true;
        }
    }
    false
}

fn is_fed(draft: &Draft) -> bool
    ensures { result ≡ spec.is_fed draft.now }
{
    for pipeline in draft.pipelines.as_slice() {
        if has_receiver(draft, pipeline.receivers.as_slice()) {
            return true;
        }
    }
    false
}

fn check_fed<'a>(alloc: Global, draft: &Draft, path: &'a Path<'a>) -> Result<(), PointedStop>
    ensures { Finds result (unfed_fault draft.now (pointer_of path.now)) }
{
    if is_fed(draft) {
        return Ok(());
    }
    Err(told(alloc, FaultKind::NoReceiver, path))
}

/// Looks for the first fault in the names that pipelines and connectors cite.
pub(crate) fn check_references(alloc: Global, draft: &Draft) -> Result<(), PointedStop>
    ensures { Finds result (references_fault draft.now) }
{
    let top = Path::top();
    let service = top.member("service");
    let pipelines = service.member("pipelines");
    check_pipelines(alloc, draft, &pipelines, draft.pipelines.as_slice())?;
    let connectors = top.member("connectors");
    check_connectors(alloc, draft, &connectors, draft.connectors.as_slice())?;
    check_fed(alloc, draft, &pipelines)
}
