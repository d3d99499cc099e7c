//! The texts of a reply (HTTP/1.0: RFC 1945).

ghost use Rattle.std.specs.Prelude.{◌≡◌, ◌≤◌, ◌<◌, [], length, option_map, slice_get, None, Some};
ghost use Rattle.site_image.specs.declared.TheConstants.{LONGEST_IMAGE, LONGEST_KIND};
ghost use Rattle.site_image.specs.Prelude.{kind_of};
ghost use Rattle.file_tree.specs.Prelude.{files_of, IsLoaded};
ghost use Rattle.web_pages.specs.Prelude.{bytes_or, kind_line};
ghost use Rattle.httpd.specs.Reply.{body_bytes, found_file, head_text, is_scripted, kind_text};
ghost use Rattle.httpd.specs.Places.{IsFound};

use arrayvec::ArrayVec;
use file_tree::{FileId, Image, SiteOf};
use site_image::{KIND_LINE_LEN, LONGEST_KIND};

/// The most bytes of the line of a content type.
const LONGEST_LINE: usize = LONGEST_KIND + KIND_LINE_LEN;

/// The most bytes of the text of a record.
pub(crate) const LONGEST_TEXT: usize = 4200;

/// Returns the head of a reply.
pub(crate) fn head_of<B: Image>(site: &SiteOf<B>, found: Option<FileId>) -> &'static [u8]
    requires { IsFound (files_of site.now) found }
    ensures text { result.now ≡ head_text (found_file (files_of site.now) found) }
    ensures short { length result.now ≤ 60 }
{
    match found {
        Some(_) => b"HTTP/1.0 200 OK\r\nServer: uIP/1.0\r\nConnection: close\r\n",
        None => b"HTTP/1.0 404 Not found\r\nServer: uIP/1.0\r\nConnection: close\r\n",
    }
}

/// States what is true of every site.
pub(crate) fn see_loaded<B: Image>(site: &SiteOf<B>)
    ensures { IsLoaded site.now }
{
    let _ = &site.files;
}

/// Returns the content type of a file.
fn kind_at<'a, B: Image>(site: &'a SiteOf<B>, id: FileId) -> &'a [u8]
    requires { id.0 < length (files_of site.now) }
    ensures text { Some result.now ≡ option_map kind_of (slice_get (files_of site.now) id.0) }
    ensures short { length result.now ≤ LONGEST_KIND }
{
    see_loaded(site);
    site.kind(id)
}

/// Returns the bytes of a file.
pub(crate) fn bytes_at<'a, B: Image>(site: &'a SiteOf<B>, id: FileId) -> &'a [u8]
    requires { id.0 < length (files_of site.now) }
    ensures text { result.now ≡ bytes_or [] (slice_get (files_of site.now) id.0) }
    ensures short { length result.now ≤ LONGEST_IMAGE }
{
    see_loaded(site);
    site.bytes(id)
}

/// Returns the content type of a reply.
pub(crate) fn kind_of<'a, B: Image>(site: &'a SiteOf<B>, found: Option<FileId>) -> &'a [u8]
    requires { IsFound (files_of site.now) found }
    ensures text { result.now ≡ kind_text (found_file (files_of site.now) found) }
    ensures short { length result.now ≤ LONGEST_KIND }
{
    match found {
        Some(id) => kind_at(site, id),
        None => b"text/html",
    }
}

/// Returns the line of a content type, with the empty line that ends the header.
pub(crate) fn line_of(kind: &[u8]) -> ArrayVec<u8, LONGEST_LINE>
    requires { length kind.now ≤ LONGEST_KIND }
    ensures { result.items ≡ kind_line kind.now }
{
    let mut line: ArrayVec<u8, LONGEST_LINE> = ArrayVec::new();
    let prefix: &[u8] = b"Content-type: ";
    let back: &[u8] = b"\r\n\r\n";
    let _prefix_fits = line.try_extend_from_slice(prefix);
    let _kind_fits = line.try_extend_from_slice(kind);
    let _back_fits = line.try_extend_from_slice(back);
    line
}

/// Returns the bytes from which the body is generated.
pub(crate) fn body_of<'a, B: Image>(site: &'a SiteOf<B>, found: Option<FileId>) -> &'a [u8]
    requires { IsFound (files_of site.now) found }
    ensures text { result.now ≡ body_bytes (files_of site.now) (found_file (files_of site.now) found) }
    ensures short { length result.now ≤ LONGEST_IMAGE }
{
    match found {
        Some(id) => bytes_at(site, id),
        None => missing_body(site),
    }
}

/// Returns the body if no file has the name.
fn missing_body<'a, B: Image>(site: &'a SiteOf<B>) -> &'a [u8]
    ensures text { result.now ≡ body_bytes (files_of site.now) None }
    ensures short { length result.now ≤ LONGEST_IMAGE }
{
    let name: &[u8] = b"/404.html";
    match site.find(name) {
        Some(id) => bytes_at(site, id),
        None => b"not found\n",
    }
}

/// Returns whether the body is that of a script.
pub(crate) fn is_scripted<B: Image>(site: &SiteOf<B>, found: Option<FileId>) -> bool
    requires { IsFound (files_of site.now) found }
    ensures { result ≡ is_scripted (found_file (files_of site.now) found) }
{
    match found {
        Some(id) => site_image::is_script(site.name(id)),
        None => false,
    }
}
