//! What stands where in a configuration.

ghost use Rattle.std.specs.Prelude.{◌≡◌};
ghost use Rattle.std.specs.List.{list_any};
ghost use Rattle.std.specs.Str.{bytes_eq};
ghost use Rattle.conf_shape.specs.Table.{rows_of, words_of};
ghost use Rattle.conf_shape.specs.Table as spec_table;
ghost use Rattle.conf_shape.specs.Shape.{rule_in, kind_in, of_type};
ghost use Rattle.conf_shape.specs.Shape as spec;
ghost use Rattle.conf_shape.specs.ComponentName as names;
ghost use Rattle.conf_shape.specs.Rows.{rows_in, kinds_in};

use crate::kind::FaultKind;
use crate::name::type_of;

/// An object with a fixed set of members.
#[derive(Clone, Copy)]
pub enum Part {
    Top,
    FileReceiver,
    Transform,
    Group,
    Filter,
    Logs,
    GroupByAttrs,
    Routing,
    Route,
    File,
    Service,
    Pipeline,
}

/// An object whose members are components.
#[derive(Clone, Copy)]
pub enum Section {
    Receivers,
    Processors,
    Connectors,
    Exporters,
    Pipelines,
}

/// A fixed set of texts.
#[derive(Clone, Copy)]
pub enum Words {
    Modes,
    GroupContexts,
    RouteContexts,
    Actions,
}

/// What stands at a place.
#[derive(Clone, Copy)]
pub enum Rule {
    AnyText,
    FilledText,
    Word(Words),
    Texts,
    Object(Part),
    Objects(Part),
    Components(Section),
    /// Exactly one component.
    Component(Section),
}

/// A member of an object: its name, whether it must stand, and what stands there.
#[derive(Clone, Copy)]
pub(crate) struct Member(pub(crate) &'static str, pub(crate) bool, Rule);

/// A type of component, and what stands under its name.
#[derive(Clone, Copy)]
struct Kind(&'static [u8], Part);

const MUST: bool = true;

const MAY: bool = false;

static TOP: [Member; 5] = [
    Member("receivers", MUST, Rule::Component(Section::Receivers)),
    Member("processors", MAY, Rule::Components(Section::Processors)),
    Member("connectors", MAY, Rule::Components(Section::Connectors)),
    Member("exporters", MUST, Rule::Components(Section::Exporters)),
    Member("service", MUST, Rule::Object(Part::Service)),
];

static TRANSFORM: [Member; 2] = [
    Member("error_mode", MAY, Rule::Word(Words::Modes)),
    Member("log_statements", MUST, Rule::Objects(Part::Group)),
];

static GROUP: [Member; 3] = [
    Member("context", MUST, Rule::Word(Words::GroupContexts)),
    Member("conditions", MAY, Rule::Texts),
    Member("statements", MUST, Rule::Texts),
];

static FILTER: [Member; 2] = [
    Member("error_mode", MAY, Rule::Word(Words::Modes)),
    Member("logs", MUST, Rule::Object(Part::Logs)),
];

static LOGS: [Member; 1] = [Member("log_record", MUST, Rule::Texts)];

static GROUP_BY_ATTRS: [Member; 1] = [Member("keys", MAY, Rule::Texts)];

static ROUTING: [Member; 3] = [
    Member("error_mode", MAY, Rule::Word(Words::Modes)),
    Member("default_pipelines", MAY, Rule::Texts),
    Member("table", MUST, Rule::Objects(Part::Route)),
];

static ROUTE: [Member; 4] = [
    Member("context", MAY, Rule::Word(Words::RouteContexts)),
    Member("condition", MUST, Rule::AnyText),
    Member("pipelines", MUST, Rule::Texts),
    Member("action", MAY, Rule::Word(Words::Actions)),
];

static FILE: [Member; 1] = [Member("path", MUST, Rule::FilledText)];

static SERVICE: [Member; 1] = [Member("pipelines", MUST, Rule::Components(Section::Pipelines))];

static PIPELINE: [Member; 3] = [
    Member("receivers", MUST, Rule::Texts),
    Member("processors", MAY, Rule::Texts),
    Member("exporters", MUST, Rule::Texts),
];

static RECEIVERS: [Kind; 1] = [Kind(b"otlpjsonfile", Part::FileReceiver)];

static PROCESSORS: [Kind; 3] = [
    Kind(b"transform", Part::Transform),
    Kind(b"filter", Part::Filter),
    Kind(b"groupbyattrs", Part::GroupByAttrs),
];

static CONNECTORS: [Kind; 1] = [Kind(b"routing", Part::Routing)];

static EXPORTERS: [Kind; 1] = [Kind(b"file", Part::File)];

static PIPELINES: [Kind; 1] = [Kind(b"logs", Part::Pipeline)];

/// The members of an object.
pub(crate) fn members_of(part: Part) -> &'static [Member]
    ensures { rows_in result.now ≡ rows_of part }
{
    match part {
        Part::Top => &TOP,
        Part::FileReceiver => &[],
        Part::Transform => &TRANSFORM,
        Part::Group => &GROUP,
        Part::Filter => &FILTER,
        Part::Logs => &LOGS,
        Part::GroupByAttrs => &GROUP_BY_ATTRS,
        Part::Routing => &ROUTING,
        Part::Route => &ROUTE,
        Part::File => &FILE,
        Part::Service => &SERVICE,
        Part::Pipeline => &PIPELINE,
    }
}

pub(crate) fn find_rule(members: &[Member], name: &str) -> Option<Rule>
    ensures { result ≡ rule_in (rows_in members.now) name.now }
{
    for member in members {
        if member.0 == name {
            return Some(member.2);
        }
    }
    None
}

pub(crate) fn is_word_of(words: Words, text: &str) -> bool
    ensures { result ≡ list_any (bytes_eq text.now) (words_of words) }
{
    match words {
        Words::Modes => text == "ignore" || text == "silent" || text == "propagate",
        Words::GroupContexts => text == "resource" || text == "scope" || text == "log",
        Words::RouteContexts => text == "resource" || text == "log",
        Words::Actions => text == "move" || text == "copy",
    }
}

/// The components of a section.
fn kinds_of(section: Section) -> &'static [Kind]
    ensures { kinds_in result.now ≡ spec_table.kinds_of section }
{
    match section {
        Section::Receivers => &RECEIVERS,
        Section::Processors => &PROCESSORS,
        Section::Connectors => &CONNECTORS,
        Section::Exporters => &EXPORTERS,
        Section::Pipelines => &PIPELINES,
    }
}

fn find_kind(kinds: &[Kind], type_name: &[u8]) -> Option<Rule>
    ensures { result ≡ kind_in (kinds_in kinds.now) type_name.now }
{
    for kind in kinds {
        if kind.0 == type_name {
            return Some(Rule::Object(kind.1));
        }
    }
    None
}

/// What stands under a component with that name, or the fault's kind.
fn component_rule(section: Section, name: &str) -> Result<Rule, FaultKind>
    ensures { result ≡ of_type (spec_table.kinds_of section) (names.type_of name.now) }
{
    let Some(type_name) = type_of(name.as_bytes()) else {
        return Err(FaultKind::BadName);
    };
    find_kind(kinds_of(section), type_name).ok_or(FaultKind::UnknownComponent)
}

/// What stands under a member with that name, or the fault's kind.
pub(crate) fn member_rule(rule: Rule, name: &str) -> Result<Rule, FaultKind>
    ensures { result ≡ spec.member_rule rule name.now }
{
    match rule {
        Rule::Object(part) => find_rule(members_of(part), name).ok_or(FaultKind::UnknownKey),
        Rule::Components(section) => component_rule(section, name),
        Rule::Component(section) => component_rule(section, name),
        _ => Err(FaultKind::WrongKind),
    }
}

/// What stands at each element of a list; None where no list may stand.
pub(crate) fn element_rule(rule: Rule) -> Option<Rule>
    ensures { result ≡ spec.element_rule rule }
{
    match rule {
        Rule::Texts => Some(Rule::AnyText),
        Rule::Objects(part) => Some(Rule::Object(part)),
        _ => None,
    }
}
