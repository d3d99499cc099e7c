//! What the type of a site states.

ghost use Rattle.std.specs.List.{All};
ghost use Rattle.app_events.specs.Prelude.{IsByte};
ghost use Rattle.file_tree.specs.Prelude.{IsLoaded};

use file_tree::Site;

/// States what holds for every site.
pub(crate) fn see_loaded(site: &Site)
    ensures loaded { IsLoaded site.now }
    ensures bytes { All IsByte site.now.image }
{
    see_bytes(&site.image);
}

/// States that a text is bytes.
fn see_bytes(text: &[u8])
    ensures { All IsByte text.now }
{}
