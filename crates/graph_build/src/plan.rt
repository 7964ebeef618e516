//! Plans: settings with their legs.

ghost use Rattle.std.specs.Prelude.{◌≡◌, ◌≤◌, length, IsOk, IfOk};
ghost use Rattle.contract_words.specs.Gives.{Gives};
ghost use Rattle.conf_json.specs.Fault.{fault_of, lifted};
ghost use Rattle.conf_json.specs.Settings.{settings_of};
ghost use Rattle.graph_build.specs.Built.{legs_of};
ghost use Rattle.graph_build.specs.Checks.{Builds, Checks};
ghost use Rattle.graph_build.specs.Conf.{HasDraft, HasLegs, HasPlanned, conf_of};
ghost use Rattle.graph_build.specs.Found.{FindsLegs};

use crate::leg::Leg;
use crate::top::{MAX_LEGS, find_legs};
use conf_draft::Draft;
use conf_json::{ConfStop, MAX_CONF, Planned, Settings, read_conf};
use func_text::PatternMaker;
use item_list::ItemList;
use std::alloc::Global;
use std::marker::Model;

/// Settings and their legs, seen as the bytes that spell them.
#[derive(Drop)]
pub struct Plan {
    settings: Settings,
    legs: ItemList<Leg>,
}

impl Model for Plan {
    ghost use Rattle.std.specs.Prelude.{List, ℕ};
    ghost use Rattle.graph_build.specs.Conf.{HasLegs, conf_of};

    ghost Value = { List ℕ };

    ghost view = { λ p. p.settings };

    ghost invariant = { λ p. HasLegs p.legs (conf_of p.settings) };
}

impl Plan {
    /// The settings of the same bytes.
    pub fn settings(&self) -> &Settings
        ensures { result.now ≡ self.now }
    {
        &self.settings
    }

    /// What the bytes spell, with statements as texts.
    pub fn draft(&self) -> &Draft
        ensures { HasDraft result.now (conf_of self.now) }
    {
        self.settings.draft()
    }

    /// The settings of connectors and processors, in the order of the draft's.
    pub fn planned(&self) -> &Planned
        ensures { HasPlanned result.now (conf_of self.now) }
    {
        self.settings.planned()
    }

    /// The legs in their order; a leg's number is its place in the list.
    pub fn legs(&self) -> &[Leg]
        ensures value { HasLegs result.now (conf_of self.now) }
        ensures few { length result.now ≤ MAX_LEGS }
    {
        self.legs.as_slice()
    }
}

// The legs of the draft, with faults of configurations.
fn legs_of_draft(alloc: Global, settings: &Settings) -> Result<ItemList<Leg>, ConfStop>
    ensures legs { IfOk (settings_of settings.now) (λ meant.
        Gives (λ legs. legs) fault_of result (lifted (legs_of meant.draft))) }
    ensures spelled { IsOk (settings_of settings.now) }
{
    Ok(find_legs(alloc, settings.draft())?)
}

// The legs of settings that were read.
fn legs_in(alloc: Global, settings: &Settings) -> Result<ItemList<Leg>, ConfStop>
    ensures { FindsLegs result (conf_of settings.now) }
{
    legs_of_draft(alloc, settings)
}

/// The plan of settings that were read, or the first fault of their legs.
pub fn build(alloc: Global, settings: Settings) -> Result<Plan, ConfStop>
    ensures { Builds result settings }
{
    let legs = legs_in(alloc, &settings)?;
    Ok(Plan { settings, legs })
}

/// The plan of the configuration that the bytes spell, or their first fault. A pattern may be
/// refused for its size too, and the maker's count then rose.
pub fn check_conf<P: PatternMaker>(
    alloc: Global,
    maker: &mut P,
    bytes: &[u8],
) -> Result<Plan, ConfStop>
    requires { length bytes.now ≤ MAX_CONF }
    ensures { Checks (P.refusals maker.old) (P.refusals maker.new) result bytes.now }
{
    let settings = read_conf(alloc, maker, bytes)?;
    build(alloc, settings)
}
