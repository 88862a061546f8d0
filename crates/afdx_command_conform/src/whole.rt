//! All bytes of a frame, and the link that they name.

ghost use Rattle.std.specs.Prelude.{◌≡◌, IfOk, OnOk};
ghost use Rattle.afdx_frame.specs.Layout.{link_named_by};
ghost use Rattle.afdx_frame.specs.Parts.{bytes_of};
ghost use Rattle.afdx_frame.specs.Sealing.{sealed_wrongly};
ghost use Rattle.afdx_frame.specs.Seals.{whole};

use afdx_frame::{CHECK_SEQUENCE, Checked, Seal, VlId, fcs, seal, vl_of};
use std::alloc::{AllocError, Global};

/// How many bytes the destination address has, with which a frame begins.
const ADDRESS: usize = 6;

/// Appends the complement of the check sequence.
fn seal_wrongly(bytes: &mut Vec<u8>) -> Result<(), AllocError>
    ensures { OnOk result (bytes.new.items ≡ sealed_wrongly bytes.old.items) }
{
    let sequence = !fcs(bytes.as_slice());
    bytes.extend_from_slice(&sequence.to_le_bytes())
}

/// The bytes of a frame with this message, sealed like this.
#[tactic(auto, unfolding(afdx_frame::specs::Seals::whole))]
fn whole_frame(alloc: Global, sealing: Seal, message: &[u8]) -> Result<Vec<u8>, AllocError>
    ensures { IfOk result (λ bytes. bytes.items ≡ whole sealing message.now) }
{
    let mut bytes = Vec::with_capacity(alloc, message.len() + CHECK_SEQUENCE)?;
    bytes.extend_from_slice(message)?;
    match sealing {
        Seal::Right => seal(&mut bytes)?,
        Seal::Wrong => seal_wrongly(&mut bytes)?,
        Seal::Missing => {}
    }
    Ok(bytes)
}

/// The link that a frame names whose address may end in what seals it.
#[cold]
#[inline(never)]
fn vl_of_whole(alloc: Global, frame: Checked<'_>) -> Result<Option<VlId>, AllocError>
    ensures { IfOk result (λ vl. vl ≡ link_named_by (bytes_of frame.entry)) }
{
    let bytes = whole_frame(alloc, frame.seal, frame.message)?;
    Ok(vl_of(bytes.as_slice()))
}

/// The link that a frame names, if it names one, as `vl_of` finds it in all its bytes. Fails only
/// out of memory, where the message is shorter than an address.
pub fn vl_named(alloc: Global, frame: Checked<'_>) -> Result<Option<VlId>, AllocError>
    ensures { IfOk result (λ vl. vl ≡ link_named_by (bytes_of frame.entry)) }
{
    if frame.message.len() < ADDRESS {
        return vl_of_whole(alloc, frame);
    }
    Ok(vl_of(frame.message))
}
