//! Reads what a value of a right shape spells.

ghost use Rattle.std.specs.Prelude.{◌≡◌, ℕ, List, Some, IfOk};
ghost use Rattle.serde_json.specs.Data.{Data};
ghost use Rattle.serde_json.specs.View.{view, items_view, members_view};
ghost use Rattle.conf_draft.specs.Viewed.{viewed};
ghost use Rattle.conf_draft.specs.Draft as spec;
ghost use Rattle.conf_draft.specs.Draft.{text_of, texts_of, names_of, elements_of, members_of, each, each_named, group_of, row_of, connector_of, processor_of, exporter_of, pipeline_of, draft_of};

use crate::draft::{
    Action, Connector, Draft, ErrorMode, Exporter, FilterDraft, GroupDraft, Pipeline, Processor,
    ProcessorKind, RowDraft, TransformDraft,
};
use conf_shape::type_of;
use item_list::ItemList;
use pdata_tree::Context;
use pdata_value::Text;
use serde_json::{Map, Value};
use std::alloc::{AllocError, Global};

/// What an element of a list spells.
trait Element: Sized + Drop {
    ghost of: { Data → Self };

    fn read(alloc: Global, value: &Value) -> Result<Self, AllocError>
        ensures { IfOk result (λ element. element ≡ of (view value.now)) };
}

/// What a member of a section spells.
trait Named: Sized + Drop {
    ghost of: { List ℕ → Data → Self };

    fn read(alloc: Global, name: &str, value: &Value) -> Result<Self, AllocError>
        ensures { IfOk result (λ named. named ≡ of name.now (view value.now)) };
}

fn read_each<T: Element>(alloc: Global, there: Option<&Value>) -> Result<ItemList<T>, AllocError>
    ensures { IfOk result (λ list. list ≡ each T.of (elements_of (viewed there.entry))) }
{
    match there {
        Some(Value::Array(elements)) => read_elements(alloc, elements),
        _ => Ok(ItemList::new(alloc)),
    }
}

fn read_elements<T: Element>(
    alloc: Global,
    elements: &Vec<Value>,
) -> Result<ItemList<T>, AllocError>
    ensures { IfOk result (λ list. list ≡ each T.of (items_view elements.now.items)) }
{
    let mut list = ItemList::new(alloc);
    for element in elements {
        list.push(T::read(alloc, element)?)?;
    }
    Ok(list)
}

fn read_named<T: Named>(alloc: Global, there: Option<&Value>) -> Result<ItemList<T>, AllocError>
    ensures { IfOk result (λ list. list ≡ each_named T.of (members_of (viewed there.entry))) }
{
    match there {
        Some(Value::Object(members)) => read_members(alloc, members),
        _ => Ok(ItemList::new(alloc)),
    }
}

fn read_members<T: Named>(
    alloc: Global,
    members: &Map<String, Value>,
) -> Result<ItemList<T>, AllocError>
    ensures { IfOk result (λ list. list ≡ each_named T.of (members_view members.now.entries)) }
{
    let mut list = ItemList::new(alloc);
    for (name, member) in members.iter() {
        list.push(T::read(alloc, name.as_str(), member)?)?;
    }
    Ok(list)
}

fn text_at<'a>(there: Option<&'a Value>) -> &'a str
    ensures { result.now ≡ text_of (viewed there.entry) }
{
    match there {
        Some(Value::String(text)) => text.as_str(),
        _ => "",
    }
}

impl Element for Text {
    ghost of = { λ d. text_of (Some d) };

    fn read(alloc: Global, value: &Value) -> Result<Text, AllocError> {
        Text::from_str(alloc, text_at(Some(value)))
    }
}

impl Named for Text {
    ghost of = { λ name d. name };

    fn read(alloc: Global, name: &str, _: &Value) -> Result<Text, AllocError> {
        Text::from_str(alloc, name)
    }
}

fn read_mode(there: Option<&Value>) -> ErrorMode
    ensures { result ≡ spec.mode_of (text_of (viewed there.entry)) }
{
    let text = text_at(there);
    if text == "ignore" {
        ErrorMode::Ignore
    } else if text == "silent" {
        ErrorMode::Silent
    } else {
        ErrorMode::Propagate
    }
}

fn read_context(there: Option<&Value>) -> Context
    ensures { result ≡ spec.context_of (text_of (viewed there.entry)) }
{
    let text = text_at(there);
    if text == "resource" {
        Context::Resource
    } else if text == "scope" {
        Context::Scope
    } else {
        Context::Log
    }
}

fn read_row_context(there: Option<&Value>) -> Context
    ensures { result ≡ spec.row_context_of (text_of (viewed there.entry)) }
{
    if text_at(there) == "log" {
        Context::Log
    } else {
        Context::Resource
    }
}

fn read_action(there: Option<&Value>) -> Action
    ensures { result ≡ spec.action_of (text_of (viewed there.entry)) }
{
    if text_at(there) == "copy" {
        Action::Copy
    } else {
        Action::Move
    }
}

impl Element for RowDraft {
    ghost of = { row_of };

    fn read(alloc: Global, value: &Value) -> Result<RowDraft, AllocError> {
        Ok(RowDraft {
            context: read_row_context(value.get("context")),
            condition: Text::from_str(alloc, text_at(value.get("condition")))?,
            pipelines: read_each(alloc, value.get("pipelines"))?,
            action: read_action(value.get("action")),
        })
    }
}

impl Named for Connector {
    ghost of = { connector_of };

    fn read(alloc: Global, name: &str, value: &Value) -> Result<Connector, AllocError> {
        let name = Text::from_str(alloc, name)?;
        Ok(Connector {
            name,
            mode: read_mode(value.get("error_mode")),
            rows: read_each(alloc, value.get("table"))?,
            defaults: read_each(alloc, value.get("default_pipelines"))?,
        })
    }
}

impl Element for GroupDraft {
    ghost of = { group_of };

    fn read(alloc: Global, value: &Value) -> Result<GroupDraft, AllocError> {
        Ok(GroupDraft {
            context: read_context(value.get("context")),
            conditions: read_each(alloc, value.get("conditions"))?,
            statements: read_each(alloc, value.get("statements"))?,
        })
    }
}

fn read_transform(alloc: Global, value: &Value) -> Result<TransformDraft, AllocError>
    ensures { IfOk result (λ transform. transform ≡ spec.transform_of (view value.now)) }
{
    Ok(TransformDraft {
        mode: read_mode(value.get("error_mode")),
        groups: read_each(alloc, value.get("log_statements"))?,
    })
}

fn read_filter(alloc: Global, value: &Value) -> Result<FilterDraft, AllocError>
    ensures { IfOk result (λ filter. filter ≡ spec.filter_of (view value.now)) }
{
    let conditions = match value.get("logs") {
        Some(logs) => read_each(alloc, logs.get("log_record"))?,
        None => ItemList::new(alloc),
    };
    Ok(FilterDraft {
        mode: read_mode(value.get("error_mode")),
        conditions,
    })
}

fn read_kind(alloc: Global, name: &str, value: &Value) -> Result<ProcessorKind, AllocError>
    ensures { IfOk result (λ kind. kind ≡ (processor_of name.now (view value.now)).kind) }
{
    let type_name = match type_of(name.as_bytes()) {
        Some(type_name) => type_name,
        None => &[],
    };
    if type_name == b"transform".as_slice() {
        return Ok(ProcessorKind::Transform(read_transform(alloc, value)?));
    }
    if type_name == b"filter".as_slice() {
        return Ok(ProcessorKind::Filter(read_filter(alloc, value)?));
    }
    Ok(ProcessorKind::GroupByAttrs(read_each(alloc, value.get("keys"))?))
}

impl Named for Processor {
    ghost of = { processor_of };

    fn read(alloc: Global, name: &str, value: &Value) -> Result<Processor, AllocError> {
        let kind = read_kind(alloc, name, value)?;
        let name = Text::from_str(alloc, name)?;
        Ok(Processor { name, kind })
    }
}

impl Named for Exporter {
    ghost of = { exporter_of };

    fn read(alloc: Global, name: &str, value: &Value) -> Result<Exporter, AllocError> {
        let name = Text::from_str(alloc, name)?;
        let path = Text::from_str(alloc, text_at(value.get("path")))?;
        Ok(Exporter { name, path })
    }
}

impl Named for Pipeline {
    ghost of = { pipeline_of };

    fn read(alloc: Global, name: &str, value: &Value) -> Result<Pipeline, AllocError> {
        let name = Text::from_str(alloc, name)?;
        Ok(Pipeline {
            name,
            receivers: read_each(alloc, value.get("receivers"))?,
            processors: read_each(alloc, value.get("processors"))?,
            exporters: read_each(alloc, value.get("exporters"))?,
        })
    }
}

pub(crate) fn read_parts(alloc: Global, value: &Value) -> Result<Draft, AllocError>
    ensures { IfOk result (λ draft. draft ≡ draft_of (view value.now)) }
{
    let pipelines = match value.get("service") {
        Some(service) => read_named(alloc, service.get("pipelines"))?,
        None => ItemList::new(alloc),
    };
    Ok(Draft {
        receivers: read_named(alloc, value.get("receivers"))?,
        processors: read_named(alloc, value.get("processors"))?,
        connectors: read_named(alloc, value.get("connectors"))?,
        exporters: read_named(alloc, value.get("exporters"))?,
        pipelines,
    })
}
