//! The parts of a job's lead.
ghost use Rattle.std.specs.Prelude.{◌≡◌, ◌+◌, ◌<◌, ◌≤◌, length, OnOk, OnErr, vec_capacity};
ghost use Rattle.parts.specs.JobRows.{IsPermitted};
ghost use Rattle.parts.specs.RowsOfParts.{parts_of};
ghost use Rattle.session.specs.Precisions.{weights_in};
ghost use Rattle.session.specs.Leads.{AreLeadParts, ExtendsLead};

use intake::InputRows;
use parts::Part;
use ps_model::OutOfMemory;
use std::sync::Arc;

/// Extends the parts of the lead to those of the degrees up to `to`, in the memory that is
/// reserved. On a refusal those that came before it stay.
pub(crate) fn extend_lead(
    input: &mut InputRows,
    lead: &mut Vec<Arc<Part>>,
    to: u32,
) -> Result<(), OutOfMemory>
    requires permitted { IsPermitted (weights_in input.old) to }
    requires room { to < vec_capacity lead.old }
    requires few { length lead.old.items ≤ 4096 }
    requires parts { AreLeadParts input.old (parts_of lead.old.items) }
    ensures input { input.new ≡ input.old }
    ensures parts { AreLeadParts input.old (parts_of lead.new.items) }
    ensures extends { ExtendsLead (to + 1) (parts_of lead.old.items) (parts_of lead.new.items) }
    ensures capacity { vec_capacity lead.new ≡ vec_capacity lead.old }
    ensures ok { OnOk result (to < length lead.new.items) }
    ensures err { OnErr result (length lead.new.items ≤ to) }
{
    for r in lead.len() as u32..to + 1 {
        let part = input.lead_part(r)?;
        lead.push_reserved(part);
    }
    Ok(())
}
