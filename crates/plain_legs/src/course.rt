//! The parts of a pipeline, one after another on a leg's tree.

ghost use Rattle.std.specs.Prelude.{◌≡◌, ◌++◌, suc, drop, map, IfOk, OnOk};
ghost use Rattle.leg_model.specs.Course as spec;
ghost use Rattle.leg_model.specs.Course.{failure, numbered, processed, start};
ghost use Rattle.pdata_tree.specs.Grouping.{grouped};
ghost use Rattle.pdata_tree.specs.Operations.{log_trees};
ghost use Rattle.pdata_tree.specs.Tree.{records};
ghost use Rattle.plain_legs.specs.Views.{course_of, parts_in, Comes, Processes, StoppedAs};

use crate::counting::{add, count_records};
use crate::parts::PipelineParts;
use conf_json::{Note, NoteBook, PlainStop, ProcessorSettings, RouteSettings};
use item_list::ItemList;
use leg_model::LegNote;
use ottl_eval::KeptMatchers;
use pdata_tree::Batch;
use pdata_value::Text;
use routing_conn::PlainRouted;
use std::alloc::{AllocError, Global};

/// What a leg has come to after some of its parts.
#[derive(Drop)]
pub(crate) struct LegCourse {
    pub(crate) tree: Batch,
    pub(crate) book: NoteBook,
    pub(crate) notes: ItemList<LegNote>,
    pub(crate) filtered: u128,
    pub(crate) routed: ItemList<PlainRouted>,
    pub(crate) unrouted: u128,
}

/// How a leg failed.
#[derive(Drop)]
pub(crate) struct LegFailure {
    pub(crate) book: NoteBook,
    pub(crate) notes: ItemList<LegNote>,
    pub(crate) fault: LegNote,
}

/// Why a leg came no further.
#[derive(Drop)]
pub(crate) enum CourseStop {
    Failed(LegFailure),
    NoMemory,
}

impl From<AllocError> for CourseStop {
    ghost use Rattle.std.specs.Prelude.{◌≡◌};
    ghost use Rattle.plain_legs.specs.declared.course.CourseStop.TheVariants.{NoMemory};

    ghost from_gives = { λ _ stop. stop ≡ NoMemory };

    fn from(_: AllocError) -> CourseStop {
        CourseStop::NoMemory
    }
}

/// The beginning of a leg, before its first part.
pub(crate) fn begin(alloc: Global, tree: Batch) -> LegCourse
    ensures { course_of result ≡ start tree }
{
    LegCourse {
        tree,
        book: NoteBook::new(),
        notes: ItemList::new(alloc),
        filtered: 0,
        routed: ItemList::new(alloc),
        unrouted: 0,
    }
}

// What a processor makes of a tree.
fn process<'p>(
    alloc: Global,
    settings: &'p ProcessorSettings,
    tree: Batch,
    matchers: &mut KeptMatchers<'p>,
    book: &mut NoteBook,
) -> Result<Batch, PlainStop>
    ensures { Processes book.old book.new result
        (processed log_trees grouped settings.now tree book.old) }
{
    match settings {
        ProcessorSettings::Transform(settings) => {
            transform_proc::apply_plain(alloc, settings, tree, matchers, book)
        }
        ProcessorSettings::Filter(settings) => {
            filter_proc::apply_plain(alloc, settings, tree, matchers, book)
        }
        ProcessorSettings::GroupByAttrs(settings) => {
            match groupby_proc::apply_plain(alloc, settings, tree) {
                Ok(tree) => Ok(tree),
                Err(_) => Err(PlainStop::NoMemory),
            }
        }
    }
}

// Adds notes of the part with that number.
fn push_notes(
    notes: &mut ItemList<LegNote>,
    component: usize,
    more: &[Note],
) -> Result<(), AllocError>
    ensures { OnOk result (notes.new ≡ notes.old ++ numbered component more.now) }
{
    for note in more {
        notes.push(LegNote {
            component,
            note: *note,
        })?;
    }
    Ok(())
}

// Adds the notes of a book behind so many, which are of the part with that number.
fn push_gained(
    notes: &mut ItemList<LegNote>,
    component: usize,
    book: &NoteBook,
    known: usize,
) -> Result<(), AllocError>
    ensures { OnOk result
        (notes.new ≡ notes.old ++ numbered component (drop known book.now.notes)) }
{
    let all = book.notes();
    if known < all.len() {
        push_notes(notes, component, &all[known..])
    } else {
        Ok(())
    }
}

// The log records that a processor dropped, by how many there were before and are now.
fn dropped(settings: &ProcessorSettings, before: u128, now: u128) -> u128
    ensures { result ≡ spec.dropped settings.now before now }
{
    match settings {
        ProcessorSettings::Transform(_) => 0,
        ProcessorSettings::Filter(_) => before.saturating_sub(now),
        ProcessorSettings::GroupByAttrs(_) => 0,
    }
}

// The log records of what a connector left, where they go to no pipeline.
fn left_over(defaults: &[Text], rest: &Batch) -> Result<u128, AllocError>
    ensures { IfOk result (λ count. count ≡ spec.left_over defaults.now (records rest.now)) }
{
    if defaults.is_empty() {
        count_records(rest)
    } else {
        Ok(0)
    }
}

// How a leg ended at the part with that number.
fn stopped(book: NoteBook, notes: ItemList<LegNote>, number: usize, stop: PlainStop) -> CourseStop
    ensures { StoppedAs stop result (failure number book notes) }
{
    match stop {
        PlainStop::Failed(note) => CourseStop::Failed(LegFailure {
            book,
            notes,
            fault: LegNote {
                component: number,
                note,
            },
        }),
        PlainStop::NoMemory => CourseStop::NoMemory,
    }
}

// A processor, with its number.
fn by_processor<'p>(
    alloc: Global,
    number: usize,
    settings: &'p ProcessorSettings,
    course: LegCourse,
    matchers: &mut KeptMatchers<'p>,
) -> Result<LegCourse, CourseStop>
    ensures { Comes result
        (spec.by_processor log_trees grouped number settings.now (course_of course)) }
{
    let mut course = course;
    let known = course.book.notes().len();
    let before = count_records(&course.tree)?;
    match process(alloc, settings, course.tree, matchers, &mut course.book) {
        Ok(tree) => {
            push_gained(&mut course.notes, number, &course.book, known)?;
            let gone = dropped(settings, before, count_records(&tree)?);
            course.filtered = add(course.filtered, gone)?;
            course.tree = tree;
            Ok(course)
        }
        Err(stop) => Err(stopped(course.book, course.notes, number, stop)),
    }
}

// Processors one after another.
fn by_processors<'p>(
    alloc: Global,
    processors: &[&'p ProcessorSettings],
    course: LegCourse,
    matchers: &mut KeptMatchers<'p>,
) -> Result<LegCourse, CourseStop>
    ensures { Comes result
        (spec.by_processors log_trees grouped 0 (map (λ s. s.now) processors.now)
        (course_of course)) }
{
    let mut course = course;
    for (number, settings) in processors.iter().enumerate() {
        course = by_processor(alloc, number, settings, course, matchers)?;
    }
    Ok(course)
}

// A connector, with its number.
fn by_connector<'p>(
    alloc: Global,
    number: usize,
    settings: &'p RouteSettings,
    course: LegCourse,
    matchers: &mut KeptMatchers<'p>,
) -> Result<LegCourse, CourseStop>
    ensures { Comes result
        (spec.by_connector log_trees grouped number settings.now (course_of course)) }
{
    let mut course = course;
    let known = course.book.notes().len();
    let tree = course.tree.copy()?;
    match routing_conn::apply_plain(alloc, settings, tree, matchers, &mut course.book) {
        Ok(routed) => {
            push_gained(&mut course.notes, number, &course.book, known)?;
            let rest = left_over(settings.default_pipelines.as_slice(), &routed.rest)?;
            course.unrouted = add(course.unrouted, rest)?;
            course.routed.push(routed)?;
            Ok(course)
        }
        Err(stop) => Err(stopped(course.book, course.notes, number, stop)),
    }
}

// Connectors one after another, the first with that number.
fn by_connectors<'p>(
    alloc: Global,
    first: usize,
    connectors: &[&'p RouteSettings],
    course: LegCourse,
    matchers: &mut KeptMatchers<'p>,
) -> Result<LegCourse, CourseStop>
    ensures { Comes result
        (spec.by_connectors log_trees grouped first (map (λ s. s.now) connectors.now)
        (course_of course)) }
{
    let mut course = course;
    let mut number = first;
    for settings in connectors {
        course = by_connector(alloc, number, settings, course, matchers)?;
        number = next(number)?;
    }
    Ok(course)
}

// The number behind this one. One that doesn't fit counts as want of memory.
fn next(number: usize) -> Result<usize, AllocError>
    ensures { IfOk result (λ next. next ≡ suc number) }
{
    match number.checked_add(1) {
        Some(next) => Ok(next),
        None => Err(AllocError),
    }
}

/// All parts of a pipeline: its processors, then its connectors.
pub(crate) fn by_parts<'p>(
    alloc: Global,
    parts: &PipelineParts<'p>,
    tree: Batch,
    matchers: &mut KeptMatchers<'p>,
) -> Result<LegCourse, CourseStop>
    ensures { Comes result
        (spec.by_parts log_trees grouped (parts_in parts.now) (start tree)) }
{
    let processors = parts.processors.as_slice();
    let course = by_processors(alloc, processors, begin(alloc, tree), matchers)?;
    let connectors = parts.connectors.as_slice();
    by_connectors(alloc, processors.len(), connectors, course, matchers)
}
