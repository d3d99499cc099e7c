//! The handle of a device, and how a call takes the device out of it and puts it back.

ghost use Rattle.std.specs.Prelude.{◌≡◌, ◌==◌, None, Some, is_some, option_map};

use crate::held::{Held, OwnEther};
use raw_box::BoxParts;
use std::alloc::Global;
use std::mem::replace;

/// A handle. All bytes 0 represent a handle without a device.
#[repr(C)]
pub struct AppDevice {
    pub is_open: u32,
    pub held: Held,
    pub ghost tied: { (is_open == 1) ≡ is_some held.device },
}

/// Takes the device out of the handle, if there is one. The handle has none after.
pub(crate) fn take_out(alloc: Global, device: &mut AppDevice) -> Option<Box<OwnEther>>
    ensures taken { option_map (λ b. b.value) result ≡ device.old.held.device }
    ensures none { device.new.held.device ≡ None }
    ensures shut { device.new.is_open ≡ 0 }
{
    let AppDevice { is_open, held } = replace(
        device,
        AppDevice {
            is_open: 0,
            held: Held::none(alloc),
        },
    );
    if is_open == 1 {
        Some(held.into_parts().into_box())
    } else {
        let _alloc = held.into_alloc();
        None
    }
}

/// Puts a device into a handle that has none.
pub(crate) fn put_in(device: &mut AppDevice, opened: Box<OwnEther>)
    requires none { device.old.held.device ≡ None }
    ensures { device.new.held.device ≡ Some opened.value }
{
    let AppDevice { is_open: _, held } = replace(
        device,
        AppDevice {
            is_open: 1,
            held: Held::of(BoxParts::from_box(opened)),
        },
    );
    let _alloc = held.into_alloc();
}
