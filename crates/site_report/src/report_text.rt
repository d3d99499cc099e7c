//! The lines of the report.

ghost use Rattle.std.specs.Prelude.{◌≡◌, ◌<◌, ◌++◌, IfOk, OnOk, Some, decimal, flat_map, length, slice_get};
ghost use Rattle.site_image.specs.Prelude.{File};
ghost use Rattle.file_tree.specs.Prelude.{files_of};
ghost use Rattle.site_report.specs.Report.{bad_line as bad_line_of, file_line, image_report as report_of, why_word as word_of};

use file_tree::{FileId, Site, SiteError, SiteWhy};
use itoa::Buffer;
use std::alloc::{AllocError, Global};

/// Makes a line for each file, with the greatest length of its page in bytes, and a line with their count. Fails if memory runs
/// out.
pub fn report(alloc: Global, site: &Site) -> Result<Vec<u8>, AllocError>
    ensures { IfOk result (λ text. text.items ≡ report_of (files_of site.now)) }
{
    let mut text = Vec::new(alloc);
    push_files(&mut text, site)?;
    text.extend_from_slice(b"files ")?;
    push_number(&mut text, site.count())?;
    text.extend_from_slice(b"\n")?;
    Ok(text)
}

/// Appends the lines of all files.
fn push_files(text: &mut Vec<u8>, site: &Site) -> Result<(), AllocError>
    ensures { OnOk result (text.new.items ≡ text.old.items ++ flat_map (file_line (files_of site.now)) (files_of site.now)) }
{
    for number in 0..site.count() {
        push_file(text, site, FileId(number as u16))?;
    }
    Ok(())
}

/// Appends the line of a file.
fn push_file(text: &mut Vec<u8>, site: &Site, id: FileId) -> Result<(), AllocError>
    requires { id.0 < length (files_of site.now) }
    ensures { OnOk result ((file : File) → slice_get (files_of site.now) id.0 ≡ Some file
        → text.new.items ≡ text.old.items ++ file_line (files_of site.now) file) }
{
    text.extend_from_slice(site.name(id))?;
    text.extend_from_slice(b" ")?;
    push_number(text, site.greatest_page(id))?;
    text.extend_from_slice(b"\n")?;
    Ok(())
}

/// Appends a number without leading zeros.
fn push_number(text: &mut Vec<u8>, number: usize) -> Result<(), AllocError>
    ensures { OnOk result (text.new.items ≡ text.old.items ++ decimal number) }
{
    let mut digits = Buffer::new();
    text.extend_from_slice(digits.format(number).as_bytes())
}

/// Makes the line that reports a fault of an image. Fails if memory runs out.
pub fn bad_line(alloc: Global, error: SiteError) -> Result<Vec<u8>, AllocError>
    ensures { IfOk result (λ text. text.items ≡ bad_line_of error) }
{
    let mut text = Vec::from_slice(alloc, b"bad site ")?;
    text.extend_from_slice(why_word(error.why))?;
    text.extend_from_slice(b" ")?;
    push_number(&mut text, error.entry as usize)?;
    text.extend_from_slice(b"\n")?;
    Ok(text)
}

/// Returns the word of a fault.
pub fn why_word(why: SiteWhy) -> &'static [u8]
    ensures { result.now ≡ word_of why }
{
    match why {
        SiteWhy::TooLong => b"long",
        SiteWhy::Magic => b"magic",
        SiteWhy::Cut => b"cut",
        SiteWhy::TooMany => b"many",
        SiteWhy::Name => b"name",
        SiteWhy::Twice => b"twice",
        SiteWhy::Kind => b"kind",
        SiteWhy::Rest => b"rest",
        SiteWhy::Include => b"include",
        SiteWhy::PageTooLong => b"page",
    }
}
