//! Conditions on each log record of a tree.

ghost use Rattle.std.specs.Prelude.{◌≡◌};
ghost use Rattle.pdata_tree.specs.Operations.{log_trees};
ghost use Rattle.proc_targets.specs.Ends.{Ends, FailsUnder, Stays};
ghost use Rattle.filter_proc.specs.Meaning as spec;
ghost use Rattle.filter_proc.specs.Meaning.{dropped, filtered, flags_of};

use conf_json::{FilterSettings, NoteBook, Part, PlainStop};
use item_list::ItemList;
use ottl_eval::KeptMatchers;
use pdata_tree::{Batch, Context, Place, PlainScene};
use proc_targets::{Spot, any_holds, list_targets, or_stop};
use std::alloc::Global;
use tree_parts::keep_records;

/// Drops the log records on which a condition holds, and then scopes and resources without log
/// records, with the matchers that are kept. The tree of a run that fails is given up.
#[tactic(auto, using(proc_targets::proofs::Stops::stops))]
pub fn apply_plain<'p>(
    alloc: Global,
    settings: &'p FilterSettings,
    tree: Batch,
    matchers: &mut KeptMatchers<'p>,
    book: &mut NoteBook,
) -> Result<Batch, PlainStop>
    ensures value { Ends book.new result (filtered log_trees settings.now tree book.old) }
    ensures stays { Stays settings.now.error_mode book.old book.new }
    ensures failed { FailsUnder settings.now.error_mode result }
{
    let mut tree = tree;
    let places = or_stop(list_targets(alloc, &tree, Context::Log))?;
    let flags = judge_records(
        alloc,
        settings,
        &mut tree,
        places.as_slice(),
        matchers,
        book,
    )?;
    or_stop(keep_records(alloc, tree, flags.as_slice()))
}

// Whether each of the log records stays.
#[tactic(auto, using(proc_targets::proofs::Flags::flags_turn, proc_targets::proofs::Stops::stops))]
fn judge_records<'p>(
    alloc: Global,
    settings: &'p FilterSettings,
    tree: &mut Batch,
    places: &[Place],
    matchers: &mut KeptMatchers<'p>,
    book: &mut NoteBook,
) -> Result<ItemList<bool>, PlainStop>
    ensures value { Ends book.new result
        (flags_of log_trees settings.now tree.old places.now book.old) }
    ensures tree { tree.new ≡ tree.old }
    ensures stays { Stays settings.now.error_mode book.old book.new }
    ensures failed { FailsUnder settings.now.error_mode result }
{
    let mut flags = or_stop(ItemList::with_capacity(alloc, places.len()))?;
    for place in places {
        let goes = is_dropped(alloc, settings, tree, *place, matchers, book)?;
        or_stop(flags.push(!goes))?;
    }
    Ok(flags)
}

// Whether one of the conditions holds on the log record.
fn is_dropped<'p>(
    alloc: Global,
    settings: &'p FilterSettings,
    tree: &mut Batch,
    place: Place,
    matchers: &mut KeptMatchers<'p>,
    book: &mut NoteBook,
) -> Result<bool, PlainStop>
    ensures value { Ends book.new result
        (dropped log_trees settings.now tree.old place book.old) }
    ensures tree { tree.new ≡ tree.old }
    ensures stays { Stays settings.now.error_mode book.old book.new }
    ensures failed { FailsUnder settings.now.error_mode result }
{
    let spot = spot_of(settings, place);
    let conditions = settings.log_record.as_slice();
    let scene = PlainScene::new(tree, Context::Log, place);
    any_holds(alloc, &scene, matchers, conditions, &spot, book)
}

// Where the conditions stand on a log record.
pub(crate) fn spot_of(settings: &FilterSettings, place: Place) -> Spot
    ensures { result ≡ spec.spot_of settings.now place }
{
    Spot {
        mode: settings.error_mode,
        part: Part::FilterCondition,
        group: 0,
        context: Context::Log,
        place,
    }
}
