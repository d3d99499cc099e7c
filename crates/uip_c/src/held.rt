ghost use Rattle.std.specs.Prelude.{◌≡◌, true};
ghost use Rattle.uip_c.specs.Kept.{Kept as AnyKept};

use frame_device::{Ethernet, FrameDevice};
use raw_box::BoxParts;
use std::alloc::Global;
use std::marker::Model;
use std::ptr::null_mut;
use uip_device::{ValuePages, WebDevice};

/// A device on Ethernet with the web server of a site.
pub type EtherWeb = FrameDevice<ValuePages, Ethernet>;

/// A device of either kind that is kept by its address alone, as a structure of C needs it, or none. It has no `Drop`: one that has a
/// device is never dropped.
/// [add: c-application] A handle as this one, which holds its device.
#[repr(C)]
pub struct Held {
    at: *mut u8,
    alloc: Global,
    pub ghost device: { AnyKept },
}

impl Model for Held {
    ghost use Rattle.uip_c.specs.Holding.{holds};

    ghost also_owns = { λ h. holds h.alloc h.at h.device };
}

impl Held {
    ghost use Rattle.uip_device.specs.WebDevices.{IsSoundWebDevice};
    ghost use Rattle.uip_c.specs.Kept.{NoDevice, OnEther, OnLine, is_on_ether, is_on_line};

    /// Returns one without a device.
    pub fn none(alloc: Global) -> Held
        ensures { result.device ≡ NoDevice }
    {
        Held {
            at: null_mut(),
            alloc,
        }
    }

    /// Keeps the device for a line of a box that was taken apart.
    pub fn of(parts: BoxParts<WebDevice, Global>) -> Held
        requires { IsSoundWebDevice parts.value }
        ensures { result.device ≡ OnLine parts.value }
    {
        let BoxParts { at, alloc } = parts;
        Held {
            at: at as *mut u8,
            alloc,
        }
    }

    /// Keeps the device on Ethernet of a box that was taken apart.
    pub fn of_ether(parts: BoxParts<EtherWeb, Global>) -> Held
        ensures { result.device ≡ OnEther parts.value }
    {
        let BoxParts { at, alloc } = parts;
        Held {
            at: at as *mut u8,
            alloc,
        }
    }

    /// Returns the parts of the box of the device for a line.
    pub fn into_parts(self) -> BoxParts<WebDevice, Global>
        requires { is_on_line self.device ≡ true }
        ensures { (self.device ≡ OnLine result.value) × IsSoundWebDevice result.value }
    {
        let Held { at, alloc } = self;
        BoxParts {
            at: at as *mut WebDevice,
            alloc,
        }
    }

    /// Returns the parts of the box of the device on Ethernet.
    pub fn into_ether_parts(self) -> BoxParts<EtherWeb, Global>
        requires { is_on_ether self.device ≡ true }
        ensures { self.device ≡ OnEther result.value }
    {
        let Held { at, alloc } = self;
        BoxParts {
            at: at as *mut EtherWeb,
            alloc,
        }
    }

    /// Returns the allocator of one that has no device.
    pub fn into_alloc(self) -> Global
        requires { self.device ≡ NoDevice }
        ensures { result ≡ self.alloc }
    {
        let Held { at: _at, alloc } = self;
        alloc
    }
}
