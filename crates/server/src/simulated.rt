//! The images of a pair that lives as long as the program: simulated devices of the smallest size.
ghost use Rattle.std.specs.Prelude.{ℕ, IfOk};
ghost use Rattle.pmem.specs.Device.{Only};
ghost use Rattle.pmem.specs.Crash.{image_of};
ghost use Rattle.pmem.specs.Sim.{state_of};

use kv_types::Refusal;
use model::{FIRST_EPOCH, MIN_LINES};
use pmem::{Crashing, SimPmem};
use std::alloc::Global;
use wbl_engine::{Durable, Role, WblEngine};

/// A device with a new image for this role, as a crash leaves it.
///
/// `Memory` if memory was refused for the device, `Fault` if the device was refused some for its own lists.
pub fn new_image(alloc: Global, role: Role) -> Result<SimPmem, Refusal>
    ensures settled { IfOk result (λ device. (word : ℕ) → Only ((state_of device).words word) (image_of (state_of device).words word)) }
{
    let device = SimPmem::new(alloc, MIN_LINES)?;
    match WblEngine::format(device, role, FIRST_EPOCH) {
        Ok(engine) => Ok(crashed(engine.into_device())),
        Err((refusal, _device)) => Err(refusal),
    }
}

/// The device after a crash: each word has one candidate.
fn crashed(device: SimPmem) -> SimPmem
    ensures settled { (word : ℕ) → Only ((state_of result).words word) (image_of (state_of result).words word) }
{
    let mut device = device;
    device.crash(&[]);
    device
}
