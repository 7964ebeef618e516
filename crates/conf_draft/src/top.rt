//! Reads a configuration.

ghost use Rattle.contract_words.specs.Gives.{Gives};
ghost use Rattle.serde_json.specs.View.{view};
ghost use Rattle.conf_shape.specs.Fault.{Finds, fault_in, first_of, unless};
ghost use Rattle.conf_draft.specs.Draft.{draft_of};
ghost use Rattle.conf_draft.specs.Drafted.{drafted};
ghost use Rattle.conf_draft.specs.References.{references_fault};
ghost use Rattle.conf_draft.specs.Limits.{limits_fault};

use crate::draft::Draft;
use crate::limits::check_limits;
use crate::reading::read_parts;
use crate::references::check_references;
use conf_shape::{PointedStop, read_shape};
use std::alloc::Global;

/// What the bytes of a configuration spell, or their first fault apart from those of statements and
/// legs.
#[tactic(auto, unfolding(crate::specs::Drafted::drafted))]
pub fn read_draft(alloc: Global, bytes: &[u8]) -> Result<Draft, PointedStop>
    ensures { Gives (λ draft. draft) fault_in result (drafted bytes.now) }
{
    let value = read_shape(alloc, bytes)?;
    let draft = read_parts(alloc, &value)?;
    check_draft(alloc, &draft)?;
    Ok(draft)
}

fn check_draft(alloc: Global, draft: &Draft) -> Result<(), PointedStop>
    ensures { Finds result (first_of (references_fault draft.now) (limits_fault draft.now)) }
{
    check_references(alloc, draft)?;
    check_limits(alloc, draft)
}
