//! Words of two parts, `NAME=FILE` and `NAME=TYPE`.

ghost use Rattle.std.specs.Prelude.{◌≡◌, map, string_bytes, IfOk};
ghost use Rattle.std.specs.List.{list_all};
ghost use Rattle.uipd.specs.Words.{back_part, prefix_slice, has_parts as has_two, is_kind_word as kind_form};
ghost use Rattle.uipd.specs.Words.{kind_word as kind_meant, named_file as file_meant};

use site_commands::{KindWord, NamedFile};
use site_image::is_kind;
use std::alloc::{AllocError, Global};

/// Returns the parts of a word around its first `=`; without one, the whole word and nothing.
fn parts(word: &str) -> (&str, &str)
    ensures prefix { result.0.now ≡ prefix_slice word.now }
    ensures back { result.1.now ≡ back_part word.now }
{
    match word.split_once('=') {
        Some(parts) => parts,
        None => (word, ""),
    }
}

/// Returns whether the word has two parts.
fn has_parts(word: &str) -> bool
    ensures { result ≡ has_two word.now }
{
    word.as_bytes().contains(&b'=')
}

/// Returns whether each word has two parts.
pub fn have_parts(words: &[String]) -> bool
    ensures { result ≡ list_all has_two (map string_bytes words.now) }
{
    for word in words {
        if !has_parts(word) {
            return false;
        }
    }
    true
}

/// Returns whether the word is `NAME=TYPE`.
fn is_kind_word(word: &str) -> bool
    ensures { result ≡ kind_form word.now }
{
    let (_, kind) = parts(word);
    has_parts(word) && !kind.is_empty() && is_kind(kind.as_bytes())
}

/// Returns whether each word is `NAME=TYPE`.
pub fn are_kind_words(words: &[String]) -> bool
    ensures { result ≡ list_all kind_form (map string_bytes words.now) }
{
    for word in words {
        if !is_kind_word(word) {
            return false;
        }
    }
    true
}

/// Returns the file that a word names.
fn named_file(alloc: Global, word: &str) -> Result<NamedFile, AllocError>
    ensures { IfOk result (λ file. file ≡ file_meant word.now) }
{
    let (name, file) = parts(word);
    Ok(NamedFile {
        name: name.as_bytes().to_vec(alloc)?,
        file: file.as_bytes().to_vec(alloc)?,
    })
}

/// Returns the files that the words name.
pub fn named_files(alloc: Global, words: &[String]) -> Result<Vec<NamedFile>, AllocError>
    ensures { IfOk result (λ files. files.items ≡ map file_meant (map string_bytes words.now)) }
{
    let mut files = Vec::new(alloc);
    for word in words {
        files.push(named_file(alloc, word)?)?;
    }
    Ok(files)
}

/// Returns the content type that a word gives.
fn kind_word(alloc: Global, word: &str) -> Result<KindWord, AllocError>
    ensures { IfOk result (λ kind. kind ≡ kind_meant word.now) }
{
    let (name, kind) = parts(word);
    Ok(KindWord {
        name: name.as_bytes().to_vec(alloc)?,
        kind: kind.as_bytes().to_vec(alloc)?,
    })
}

/// Returns the content types that the words give.
pub fn kind_words(alloc: Global, words: &[String]) -> Result<Vec<KindWord>, AllocError>
    ensures { IfOk result (λ kinds. kinds.items ≡ map kind_meant (map string_bytes words.now)) }
{
    let mut kinds = Vec::new(alloc);
    for word in words {
        kinds.push(kind_word(alloc, word)?)?;
    }
    Ok(kinds)
}
