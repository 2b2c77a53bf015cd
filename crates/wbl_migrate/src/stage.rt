//! At what stage of its migration an image stands, as its superblock says.
ghost use Rattle.std.specs.Prelude.{◌≡◌, ◌≤◌, Some, None, IfOk, IfErr, OnOk};
ghost use Rattle.pmem.specs.Crash.{image_of};
ghost use Rattle.model.specs.declared.image.TheConstants.{MIN_LINES, MAX_LINES};
ghost use Rattle.model.specs.Image.{HasSuperblock};
ghost use Rattle.heap_layout.specs.Superblock.{super_refusal};
ghost use Rattle.wbl_migrate.specs.Stage.{stage_refusal};

use heap_layout::read_super;
use kv_types::Refusal;
use model::{Layout, MIN_LINES};
use pmem::Pmem;
use wbl_engine::layout_in;

/// The stage of an image: the layout of its version. `WrongSize` if the device has fewer than 4,096 lines or more than 2^31; then `BadMagic`; then
/// `BadVersion`, where it is none of the three; then `WrongSize` if word 2 is not the number of the device's lines; then `Damaged` if word 3 is not how many
/// of them are for the directory.
pub fn stage_of<P: Pmem>(device: &P) -> Result<Layout, Refusal>
    ensures ok { IfOk result (λ layout. HasSuperblock layout (P.state device.now).lines (image_of (P.state device.now).words)) }
    ensures many { OnOk result (MIN_LINES ≤ (P.state device.now).lines) }
    ensures few { OnOk result ((P.state device.now).lines ≤ MAX_LINES) }
    ensures whole { OnOk result (stage_refusal (P.state device.now).lines (image_of (P.state device.now).words) ≡ None) }
    ensures own { IfOk result (λ layout. super_refusal layout (P.state device.now).lines (image_of (P.state device.now).words) ≡ None) }
    ensures err { IfErr result (λ refusal. stage_refusal (P.state device.now).lines (image_of (P.state device.now).words) ≡ Some refusal) }
{
    if device.lines() < MIN_LINES {
        return Err(Refusal::WrongSize);
    }
    let layout = layout_in(device);
    read_super(device, layout)?;
    Ok(layout)
}
