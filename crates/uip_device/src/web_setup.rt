//! Opens a device with the web server of a site.

ghost use Rattle.std.specs.Prelude.{◌≡◌, ◌++◌, ◌↔◌, All, IfOk, IsTrue};
ghost use Rattle.app_events.specs.Prelude.{IsByte};
ghost use Rattle.device_values.specs.Prelude.{word_calls};
ghost use Rattle.file_tree.specs.Prelude.{HasSoundScripts, IsLoaded, files_of};
ghost use Rattle.site_image.specs.Prelude.{fault};
ghost use Rattle.site_image.specs.declared.site_error.SiteWhy.TheVariants.{PageTooLong};
ghost use Rattle.uip_device.specs.WebDevices.{OpensDevice, OpensShared, first_numbers};

use crate::device::Device;
use crate::device_web::{DeviceWeb, FlashWeb};
use crate::query::Query;
use crate::value_pages::ValuePages;
use crate::web_device::WebDevice;
use device_values::{Values, Word};
use file_tree::{FlashSite, LoadFault};
use site_image::{SiteError, SiteWhy};
use std::alloc::Global;
use uip_edge::NoMemory;
use uip_wire::{Addr, Port, WEB_PORT};

/// Why a device was not opened.
#[derive(Clone, Copy, Debug, PartialEq, Eq)]
pub enum OpenFault {
    /// The image has this first fault, or a page of it can be too long once scripts show values.
    BadSite(SiteError),
    /// Out of memory.
    NoMemory,
}

/// States what is true of every site.
pub(crate) fn see_loaded(site: &FlashSite)
    ensures loaded { IsLoaded site.now }
    ensures bytes { All IsByte site.now.image }
{
    see_bytes(site.image);
}

/// States that a text consists of bytes.
fn see_bytes(text: &[u8])
    ensures { All IsByte text.now }
{}

/// Returns whether no page can be too long, whatever its scripts call.
fn is_sound(site: &FlashSite) -> bool
    ensures { IsTrue result ↔ HasSoundScripts word_calls (files_of site.now) }
{
    site.are_scripts_sound::<Word>()
}

/// Returns the fault that a page can have 2^30 bytes or more, which is reported for the whole image.
fn too_long() -> SiteError
    ensures { result ≡ fault PageTooLong 0 }
{
    SiteError {
        why: SiteWhy::PageTooLong,
        entry: 0,
    }
}

/// Returns what the connections of a site's web server share at first.
fn web_of(alloc: Global, site: FlashSite) -> Result<DeviceWeb, NoMemory>
    ensures site { IfOk result (λ shared. shared.web.site ≡ site.entry) }
    ensures numbers { IfOk result (λ shared. shared.web.hits ++ shared.values.bytes ≡ first_numbers (files_of site.entry)) }
{
    let web = FlashWeb::new(alloc, site)?;
    Ok(DeviceWeb {
        web,
        values: Values::new(),
        query: Query::none(),
    })
}

/// Returns what the connections of the web server share at first, with the site of an image, which is read in place and not copied.
pub fn open_shared(alloc: Global, image: &'static [u8]) -> Result<DeviceWeb, OpenFault>
    ensures { OpensShared image.now result }
{
    let site = match FlashSite::read_in_place(alloc, image) {
        Ok(site) => site,
        Err(LoadFault::Bad(error)) => return Err(OpenFault::BadSite(error)),
        Err(_) => return Err(OpenFault::NoMemory),
    };
    if !is_sound(&site) {
        return Err(OpenFault::BadSite(too_long()));
    }
    see_loaded(&site);
    match web_of(alloc, site) {
        Ok(shared) => Ok(shared),
        Err(NoMemory) => Err(OpenFault::NoMemory),
    }
}

/// Opens a device at an address with the site of an image, which is read in place and not copied. No later call allocates memory
/// (measured). It repeats `open_shared`: a function for what both do copies a device on the stack (4,864 bytes in place of 480, aarch64).
pub fn open_web(alloc: Global, image: &'static [u8], own: Addr) -> Result<WebDevice, OpenFault>
    ensures { OpensDevice image.now own result }
{
    let site = match FlashSite::read_in_place(alloc, image) {
        Ok(site) => site,
        Err(LoadFault::Bad(error)) => return Err(OpenFault::BadSite(error)),
        Err(_) => return Err(OpenFault::NoMemory),
    };
    if !is_sound(&site) {
        return Err(OpenFault::BadSite(too_long()));
    }
    see_loaded(&site);
    let Ok(shared) = web_of(alloc, site) else {
        return Err(OpenFault::NoMemory);
    };
    match Device::<ValuePages>::new(alloc, own, Some(Port(WEB_PORT)), shared) {
        Ok(device) => Ok(device),
        Err(NoMemory) => Err(OpenFault::NoMemory),
    }
}
