ghost use Rattle.std.specs.Prelude.{◌≡◌, None, Some, is_some, true};
ghost use Rattle.uip_both_c.specs.Kept.{Kept as AnyKept};

use app_pair::AppPair;
use frame_device::{Ethernet, FrameDevice};
use own_app::OwnApp;
use raw_box::BoxParts;
use std::alloc::Global;
use std::marker::Model;
use std::ptr::null_mut;
use uip_device::ValuePages;

/// The pages of a site, and the application of the program's own at its ports.
pub type BothApps = AppPair<ValuePages, OwnApp>;

/// A device on Ethernet with both.
pub type BothEther = FrameDevice<BothApps, Ethernet>;

/// A device that is kept by its address alone, as a structure of C needs it, or none. It has no `Drop`: one that has a device is never
/// dropped.
#[repr(C)]
pub struct Held {
    at: *mut u8,
    alloc: Global,
    pub ghost device: { AnyKept },
}

impl Model for Held {
    ghost use Rattle.uip_both_c.specs.Holding.{holds};

    ghost also_owns = { λ h. holds h.alloc h.at h.device };
}

impl Held {
    /// Returns one without a device.
    pub fn none(alloc: Global) -> Held
        ensures { result.device ≡ None }
    {
        Held {
            at: null_mut(),
            alloc,
        }
    }

    /// Keeps the device of a box that was taken apart.
    pub fn of(parts: BoxParts<BothEther, Global>) -> Held
        ensures { result.device ≡ Some parts.value }
    {
        let BoxParts { at, alloc } = parts;
        Held {
            at: at as *mut u8,
            alloc,
        }
    }

    /// Returns the parts of the box of the device.
    pub fn into_parts(self) -> BoxParts<BothEther, Global>
        requires { is_some self.device ≡ true }
        ensures { self.device ≡ Some result.value }
    {
        let Held { at, alloc } = self;
        BoxParts {
            at: at as *mut BothEther,
            alloc,
        }
    }

    /// Returns the allocator of one that has no device.
    pub fn into_alloc(self) -> Global
        requires { self.device ≡ None }
        ensures { result ≡ self.alloc }
    {
        let Held { at: _at, alloc } = self;
        alloc
    }
}
