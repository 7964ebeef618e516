//! What the names in a pipeline stand for.

ghost use Rattle.std.specs.Prelude.{◌≡◌, List, ℕ, map, Some, IfOk, option_map};
ghost use Rattle.leg_model.specs.Parts as spec;
ghost use Rattle.leg_model.specs.Parts.{all_named, parts_of, pipeline_parts};
ghost use Rattle.plain_legs.specs.Views.{parts_in};

use conf_draft::{Connector, Draft, Pipeline, Processor};
use conf_json::{Planned, ProcessorSettings, RouteSettings};
use graph_build::find_pipeline;
use item_list::ItemList;
use pdata_value::Text;
use std::alloc::{AllocError, Global};

/// A pipeline's processors, and the connectors among its exporters, as they were planned.
#[derive(Drop)]
pub struct PipelineParts<'p> {
    pub processors: ItemList<&'p ProcessorSettings>,
    pub connectors: ItemList<&'p RouteSettings>,
}

/// What has a name in a configuration.
pub trait Named {
    ghost name_of: { Self → List ℕ };

    fn name(&self) -> &str
        ensures { result.now ≡ name_of self.now };
}

impl Named for Processor {
    ghost name_of = { λ p. p.name };

    fn name(&self) -> &str {
        self.name.as_str()
    }
}

impl Named for Connector {
    ghost name_of = { λ c. c.name };

    fn name(&self) -> &str {
        self.name.as_str()
    }
}

// What the name among these stands for.
fn find_named<'p, N: Named, X>(name: &str, known: &[N], items: &'p [X]) -> Option<&'p X>
    ensures { option_map (λ item. item.now) result
        ≡ spec.named name.now (map N.name_of known.now) items.now }
{
    let [first, others @ ..] = known else {
        return None;
    };
    let [item, left @ ..] = items else {
        return None;
    };
    if name == first.name() {
        Some(item)
    } else {
        find_named(name, others, left)
    }
}

// What those of the names that are among these stand for.
fn all_of<'p, N: Named, X>(
    alloc: Global,
    names: &[Text],
    known: &[N],
    items: &'p [X],
) -> Result<ItemList<&'p X>, AllocError>
    ensures { IfOk result (λ found. map (λ item. item.now) found
        ≡ all_named names.now (map N.name_of known.now) items.now) }
{
    let mut found = ItemList::new(alloc);
    for name in names {
        if let Some(item) = find_named(name.as_str(), known, items) {
            found.push(item)?;
        }
    }
    Ok(found)
}

/// The parts of the pipeline with that name.
pub fn find_parts<'p>(
    alloc: Global,
    draft: &Draft,
    planned: &'p Planned,
    name: &str,
) -> Result<PipelineParts<'p>, AllocError>
    ensures { IfOk result (λ parts. parts_in parts
        ≡ parts_of (record { draft = draft.now; planned = planned.now }) name.now) }
{
    match find_pipeline(draft.pipelines.as_slice(), name) {
        Some(pipeline) => parts_of_pipeline(alloc, draft, planned, pipeline),
        None => Ok(PipelineParts {
            processors: ItemList::new(alloc),
            connectors: ItemList::new(alloc),
        }),
    }
}

fn parts_of_pipeline<'p>(
    alloc: Global,
    draft: &Draft,
    planned: &'p Planned,
    pipeline: &Pipeline,
) -> Result<PipelineParts<'p>, AllocError>
    ensures { IfOk result (λ parts. parts_in parts
        ≡ pipeline_parts (record { draft = draft.now; planned = planned.now })
        (Some pipeline.now)) }
{
    let processors = all_of(
        alloc,
        pipeline.processors.as_slice(),
        draft.processors.as_slice(),
        planned.processors.as_slice(),
    )?;
    let connectors = all_of(
        alloc,
        pipeline.exporters.as_slice(),
        draft.connectors.as_slice(),
        planned.connectors.as_slice(),
    )?;
    Ok(PipelineParts {
        processors,
        connectors,
    })
}
