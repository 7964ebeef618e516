//! The first fault in a list of names.

ghost use Rattle.std.specs.Prelude.{◌≡◌, ◌&&◌, ◌||◌, ℕ, List, [], OnOk};
ghost use Rattle.std.specs.List.{list_any};
ghost use Rattle.std.specs.Str.{bytes_eq};
ghost use Rattle.conf_shape.specs.Fault.{Finds};
ghost use Rattle.conf_shape.specs.Path.{pointer_of};
ghost use Rattle.conf_draft.specs.References as spec;
ghost use Rattle.conf_draft.specs.References.{names_fault, name_fault, empty_fault};
ghost use Rattle.conf_draft.specs.Roles.{allows, unknown_kind};
ghost use Rattle.conf_draft.specs.Seen.{has};

use crate::draft::{Connector, Draft, Exporter, Pipeline, Processor};
use conf_shape::{FaultKind, Path, PointedStop, told};
use pdata_value::Text;
use std::alloc::{AllocError, Global};
use std::collections::BTreeMap;

/// What the names of a list name.
#[derive(Clone, Copy)]
pub(crate) enum Role<'a> {
    AsReceiver,
    AsProcessor,
    AsExporter,
    /// Pipelines that receive from that connector.
    RoutedBy(&'a str),
}

pub(crate) fn is_among(name: &str, names: &[Text]) -> bool
    ensures { result ≡ spec.is_among name.now names.now }
{
    for other in names {
        if name == other.as_str() {
            return true;
        }
    }
    false
}

fn is_connector(connectors: &[Connector], name: &str) -> bool
    ensures { result ≡ list_any (λ c. bytes_eq name.now c.name) connectors.now }
{
    for connector in connectors {
        if name == connector.name.as_str() {
            return true;
        }
    }
    false
}

fn is_processor(processors: &[Processor], name: &str) -> bool
    ensures { result ≡ list_any (λ p. bytes_eq name.now p.name) processors.now }
{
    for processor in processors {
        if name == processor.name.as_str() {
            return true;
        }
    }
    false
}

fn is_exporter(exporters: &[Exporter], name: &str) -> bool
    ensures { result ≡ list_any (λ e. bytes_eq name.now e.name) exporters.now }
{
    for exporter in exporters {
        if name == exporter.name.as_str() {
            return true;
        }
    }
    false
}

fn is_fed_by(pipelines: &[Pipeline], connector: &str, name: &str) -> bool
    ensures { result ≡ list_any
        (λ p. bytes_eq name.now p.name && spec.is_among connector.now p.receivers) pipelines.now }
{
    for pipeline in pipelines {
        if name == pipeline.name.as_str() && is_among(connector, pipeline.receivers.as_slice()) {
            return true;
        }
    }
    false
}

fn is_allowed(draft: &Draft, role: Role<'_>, name: &str) -> bool
    ensures { result ≡ allows draft.now role.entry name.now }
{
    let connectors = draft.connectors.as_slice();
    match role {
        Role::AsReceiver => {
            is_among(name, draft.receivers.as_slice()) || is_connector(connectors, name)
        }
        Role::AsProcessor => is_processor(draft.processors.as_slice(), name),
        Role::AsExporter => {
            is_exporter(draft.exporters.as_slice(), name) || is_connector(connectors, name)
        }
        Role::RoutedBy(connector) => is_fed_by(draft.pipelines.as_slice(), connector, name),
    }
}

fn unknown(role: Role<'_>) -> FaultKind
    ensures { result ≡ unknown_kind role.entry }
{
    match role {
        Role::RoutedBy(_) => FaultKind::UnknownPipeline,
        _ => FaultKind::UnknownComponent,
    }
}

/// Looks for a name that may not stand there, or that stood before.
pub(crate) fn check_names<'a>(
    alloc: Global,
    draft: &Draft,
    role: Role<'_>,
    path: &'a Path<'a>,
    names: &'a [Text],
) -> Result<(), PointedStop>
    ensures { Finds result
        (names_fault (allows draft.now role.entry) (unknown_kind role.entry)
        (pointer_of path.now) [] names.now) }
{
    let mut seen: BTreeMap<&str, ()> = BTreeMap::new(alloc);
    for (index, name) in names.iter().enumerate() {
        let here = Path::Element(path, index);
        check_name(alloc, draft, role, &here, &seen, name.as_str())?;
        put(&mut seen, name.as_str())?;
    }
    Ok(())
}

fn check_name<'a>(
    alloc: Global,
    draft: &Draft,
    role: Role<'_>,
    path: &'a Path<'a>,
    seen: &BTreeMap<&str, ()>,
    name: &str,
) -> Result<(), PointedStop>
    ensures { (earlier : List (List ℕ)) → ((q : List ℕ) → has seen.now q ≡ spec.is_among q earlier)
        → Finds result (name_fault (allows draft.now role.entry) (unknown_kind role.entry)
        (pointer_of path.now) earlier name.now) }
{
    if !is_allowed(draft, role, name) {
        return Err(told(alloc, unknown(role), path));
    }
    if stands_in(seen, name) {
        return Err(told(alloc, FaultKind::Repeated, path));
    }
    Ok(())
}

pub(crate) fn put<'a>(seen: &mut BTreeMap<&'a str, ()>, name: &'a str) -> Result<(), AllocError>
    ensures { OnOk result
        ((q : List ℕ) → has seen.new q ≡ (has seen.old q || bytes_eq q name.now)) }
{
    match seen.insert(name, ()) {
        Ok(_) => Ok(()),
        Err(failed) => Err(AllocError::from(failed)),
    }
}

pub(crate) fn stands_in(seen: &BTreeMap<&str, ()>, name: &str) -> bool
    ensures { result ≡ has seen.now name.now }
{
    seen.contains_key(name)
}

/// Looks for a list without names.
pub(crate) fn check_filled<'a>(
    alloc: Global,
    kind: FaultKind,
    path: &'a Path<'a>,
    names: &[Text],
) -> Result<(), PointedStop>
    ensures { Finds result (empty_fault kind (pointer_of path.now) names.now) }
{
    if names.is_empty() {
        return Err(told(alloc, kind, path));
    }
    Ok(())
}
