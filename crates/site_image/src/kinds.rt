//! Scripts and content types, by the names of files.

ghost use Rattle.std.specs.Prelude.{◌≡◌};
ghost use Rattle.site_image.specs.Names as names;

use script_lang::ends_in;

/// Returns whether the file with this name is a script.
#[inline(never)]
pub fn is_script(name: &[u8]) -> bool
    ensures { result ≡ names.is_script name.now }
{
    ends_in(name, b".shtml")
}

/// Returns the content type by the ending of the name.
/// [add: content-type] The ending of a name, and its type.
// It is not inlined, since its caller is, wherever a reply begins.
#[inline(never)]
pub fn content_kind(name: &[u8]) -> &'static [u8]
    ensures { result.now ≡ names.kind_by_name name.now }
{
    if ends_in(name, b".html") || ends_in(name, b".shtml") {
        b"text/html"
    } else if ends_in(name, b".txt") {
        b"text/plain"
    } else if ends_in(name, b".css") {
        b"text/css"
    } else if ends_in(name, b".png") {
        b"image/png"
    } else if ends_in(name, b".gif") {
        b"image/gif"
    } else if ends_in(name, b".jpg") {
        b"image/jpeg"
    } else {
        b"application/octet-stream"
    }
}
