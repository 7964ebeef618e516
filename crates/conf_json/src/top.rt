//! Reads the settings of a configuration.

ghost use Rattle.std.specs.Prelude.{◌≡◌, ◌≤◌, length, IsOk, IfOk};
ghost use Rattle.contract_words.specs.Gives.{Gives};
ghost use Rattle.conf_draft.specs.Drafted.{drafted};
ghost use Rattle.conf_json.specs.Fault.{fault_of, lifted};
ghost use Rattle.conf_json.specs.Plans.{Plans};
ghost use Rattle.conf_json.specs.Settings.{meant_of, settings_of};
ghost use Rattle.conf_json.specs.Reads.{Reads};

use crate::fault::ConfStop;
use crate::planning::plan_all;
use crate::settings::{Meant, Planned};
use conf_draft::{Draft, read_draft};
use func_text::PatternMaker;
use item_list::ItemList;
use std::alloc::Global;
use std::marker::Model;

/// How many bytes a configuration may have.
pub const MAX_CONF: usize = 1048576;

/// Settings, seen as the bytes that spell them.
#[derive(Drop)]
pub struct Settings {
    bytes: ItemList<u8>,
    meant: Meant,
}

impl Model for Settings {
    ghost use Rattle.std.specs.Prelude.{◌≡◌, List, ℕ, Ok};
    ghost use Rattle.conf_json.specs.Settings.{settings_of};

    ghost Value = { List ℕ };

    ghost view = { λ s. s.bytes };

    ghost invariant = { λ s. settings_of s.bytes ≡ Ok s.meant };
}

impl Settings {
    /// The bytes of the configuration.
    pub fn bytes(&self) -> &[u8]
        ensures { result.now ≡ self.now }
    {
        self.bytes.as_slice()
    }

    /// What the bytes spell, with statements as texts.
    pub fn draft(&self) -> &Draft
        ensures value { IfOk (settings_of self.now) (λ meant. result.now ≡ meant.draft) }
        ensures spelled { IsOk (settings_of self.now) }
    {
        &self.meant.draft
    }

    /// The settings of connectors and processors, in the order of the draft's.
    pub fn planned(&self) -> &Planned
        ensures { IfOk (settings_of self.now) (λ meant. result.now ≡ meant.planned) }
    {
        &self.meant.planned
    }
}

/// The settings that the bytes spell, or their first fault apart from those of legs. A pattern may
/// be refused for its size too, and the maker's count then rose.
pub fn read_conf<P: PatternMaker>(
    alloc: Global,
    maker: &mut P,
    bytes: &[u8],
) -> Result<Settings, ConfStop>
    requires { length bytes.now ≤ MAX_CONF }
    ensures { Reads (P.refusals maker.old) (P.refusals maker.new) result bytes.now }
{
    let meant = read_meant(alloc, maker, bytes)?;
    let bytes = ItemList::from_slice(alloc, bytes)?;
    Ok(Settings { bytes, meant })
}

// What the bytes spell.
#[tactic(auto, unfolding(crate::specs::Settings::settings_of), using(crate::proofs::Each::plans_read))]
fn read_meant<P: PatternMaker>(
    alloc: Global,
    maker: &mut P,
    bytes: &[u8],
) -> Result<Meant, ConfStop>
    requires { length bytes.now ≤ MAX_CONF }
    ensures { Plans (P.refusals maker.old) (P.refusals maker.new) result (settings_of bytes.now) }
{
    let draft = read_texts(alloc, bytes)?;
    plan_draft(alloc, maker, draft)
}

// The draft that the bytes spell, with faults of this crate.
fn read_texts(alloc: Global, bytes: &[u8]) -> Result<Draft, ConfStop>
    requires { length bytes.now ≤ MAX_CONF }
    ensures { Gives (λ draft. draft) fault_of result (lifted (drafted bytes.now)) }
{
    Ok(read_draft(alloc, bytes)?)
}

// A draft with its statements and conditions planned.
fn plan_draft<P: PatternMaker>(
    alloc: Global,
    maker: &mut P,
    draft: Draft,
) -> Result<Meant, ConfStop>
    ensures { Plans (P.refusals maker.old) (P.refusals maker.new) result (meant_of draft) }
{
    let planned = plan_all(alloc, maker, &draft)?;
    Ok(Meant { draft, planned })
}
