//! The ways out of a pipeline.

ghost use Rattle.std.specs.Prelude.{◌≡◌, ◌++◌, ◌∷◌, [], List, ℕ, Option, Some, None, IfOk, OnOk, option_map, slice_get};
ghost use Rattle.std.specs.List.{list_any};
ghost use Rattle.graph_build.specs.Exits as spec;
ghost use Rattle.graph_build.specs.Exits.{connectors_among, exits_to, row_exits, connector_exits, exits_from};

use conf_draft::{Connector, Draft, Pipeline, RowDraft};
use item_list::ItemList;
use pdata_value::Text;
use std::alloc::{AllocError, Global};

/// A way out of a pipeline.
#[derive(Drop)]
pub struct Exit {
    /// Which of the pipeline's connectors, counted in the order of its exporters.
    pub connector: usize,
    /// The row of its table; None for the default.
    pub row: Option<usize>,
    /// The pipeline that it leads to.
    pub pipeline: Text,
}

fn find_connector<'a>(connectors: &'a [Connector], name: &str) -> Option<&'a Connector>
    ensures { option_map (λ c. c.now) result ≡ spec.connector_named name.now connectors.now }
{
    for connector in connectors {
        if name == connector.name.as_str() {
            return Some(connector);
        }
    }
    None
}

/// The pipeline with that name.
pub fn find_pipeline<'a>(pipelines: &'a [Pipeline], name: &str) -> Option<&'a Pipeline>
    ensures { option_map (λ p. p.now) result ≡ spec.pipeline_named name.now pipelines.now }
{
    for pipeline in pipelines {
        if name == pipeline.name.as_str() {
            return Some(pipeline);
        }
    }
    None
}

fn push_exits(
    alloc: Global,
    exits: &mut ItemList<Exit>,
    connector: usize,
    row: Option<usize>,
    pipelines: &[Text],
) -> Result<(), AllocError>
    ensures { OnOk result (exits.new ≡ exits.old ++ exits_to connector row pipelines.now) }
{
    for name in pipelines {
        let pipeline = Text::from_str(alloc, name.as_str())?;
        exits.push(Exit {
            connector,
            row,
            pipeline,
        })?;
    }
    Ok(())
}

fn push_rows(
    alloc: Global,
    exits: &mut ItemList<Exit>,
    connector: usize,
    rows: &[RowDraft],
) -> Result<(), AllocError>
    ensures { OnOk result (exits.new ≡ exits.old ++ row_exits connector 0 rows.now) }
{
    for (index, row) in rows.iter().enumerate() {
        push_exits(
            alloc,
            exits,
            connector,
            Some(index),
            row.pipelines.as_slice(),
        )?;
    }
    Ok(())
}

fn push_connector(
    alloc: Global,
    exits: &mut ItemList<Exit>,
    number: usize,
    connector: &Connector,
) -> Result<(), AllocError>
    ensures { OnOk result (exits.new ≡ exits.old ++ connector_exits number connector.now) }
{
    push_rows(alloc, exits, number, connector.rows.as_slice())?;
    push_exits(alloc, exits, number, None, connector.defaults.as_slice())
}

/// The ways out through the connectors among these exporters.
fn list_exits(
    alloc: Global,
    connectors: &[Connector],
    exporters: &[Text],
) -> Result<ItemList<Exit>, AllocError>
    ensures { IfOk result (λ exits. exits ≡ exits_from connectors.now 0 exporters.now) }
{
    let mut exits = ItemList::new(alloc);
    let mut number: usize = 0;
    for (index, name) in exporters.iter().enumerate() {
        if let Some(connector) = find_connector(connectors, name.as_str()) {
            push_connector(alloc, &mut exits, number, connector)?;
            number += 1;
        }
    }
    Ok(exits)
}

/// The ways out of the pipeline with that name.
pub(crate) fn exits_of(
    alloc: Global,
    draft: &Draft,
    name: &str,
) -> Result<ItemList<Exit>, AllocError>
    ensures { IfOk result (λ exits. exits ≡ spec.exits_of draft.now name.now) }
{
    match find_pipeline(draft.pipelines.as_slice(), name) {
        Some(pipeline) => {
            let exporters = pipeline.exporters.as_slice();
            list_exits(alloc, draft.connectors.as_slice(), exporters)
        }
        None => Ok(ItemList::new(alloc)),
    }
}

fn nth_connector<'a>(
    connectors: &'a [Connector],
    exporters: &[Text],
    number: u32,
) -> Option<&'a Connector>
    ensures { option_map (λ c. c.now) result
        ≡ slice_get (connectors_among connectors.now exporters.now) number }
{
    let mut left = number;
    for name in exporters {
        if let Some(connector) = find_connector(connectors, name.as_str()) {
            if left == 0 {
                return Some(connector);
            }
            left -= 1;
        }
    }
    None
}

/// The connector with that number of the pipeline with that name.
pub fn connector_at<'a>(draft: &'a Draft, pipeline: &str, number: u32) -> Option<&'a Connector>
    ensures { option_map (λ c. c.now) result ≡ spec.connector_at draft.now pipeline.now number }
{
    match find_pipeline(draft.pipelines.as_slice(), pipeline) {
        Some(pipeline) => {
            let exporters = pipeline.exporters.as_slice();
            nth_connector(draft.connectors.as_slice(), exporters, number)
        }
        None => None,
    }
}

/// Whether one of the ways leads to that pipeline.
pub(crate) fn leads_to(exits: &[Exit], name: &str) -> bool
    ensures { result ≡ spec.leads_to exits.now name.now }
{
    for exit in exits {
        if name == exit.pipeline.as_str() {
            return true;
        }
    }
    false
}
