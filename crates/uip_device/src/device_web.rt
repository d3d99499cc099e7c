//! What the connections of a device's web server share.

ghost use Rattle.std.specs.Prelude.{◌≡◌};
ghost use Rattle.httpd.specs.Web.{IsCounted};

use crate::query::Query;
use device_values::Values;
use httpd::WebOf;

/// A site that is read in place, with a hit count for each of its files.
pub type FlashWeb = WebOf<&'static [u8]>;

/// A site with its hit counts, the values of the device, and the query that it keeps.
#[derive(Drop)]
pub struct DeviceWeb {
    pub web: FlashWeb,
    pub values: Values,
    pub query: Query,
}

/// States what is true of every web.
pub(crate) fn see_counted(web: &FlashWeb)
    ensures { IsCounted web.now.site web.now.hits }
{
    let _ = &web.hits;
}
