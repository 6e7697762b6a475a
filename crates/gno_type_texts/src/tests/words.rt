// Names and paths that rows give. A bad row fails as memory does.
ghost use Rattle.std.specs.Prelude.{◌≡◌, IfOk};
ghost use Rattle.std.specs.List.{list_all};
ghost use Rattle.gno_base.specs.Callers.{is_small_letter};
ghost use Rattle.gno_scan.specs.Names.{IsName};
ghost use Rattle.gno_terms.specs.Lawful.{IsPath};
ghost use Rattle.gno_type_texts.specs.Shelves.{is_camel, is_plain};

use gno_base::{Bytes, Path, is_small_letter};
use std::alloc::{AllocError, Global};

fn is_plain(b: u8) -> bool
    ensures { result ≡ is_plain b }
{
    b < 128 && b.is_ascii_alphabetic()
}

fn are_plain(word: &[u8]) -> bool
    ensures { result ≡ list_all is_plain word.now }
{
    word.iter().all(|b| is_plain(*b))
}

fn are_small_letters(word: &[u8]) -> bool
    ensures { result ≡ list_all is_small_letter word.now }
{
    word.iter().all(|b| is_small_letter(*b))
}

// Whether all are letters of ASCII, and one a capital letter.
fn is_camel(word: &[u8]) -> bool
    ensures { result ≡ is_camel word.now }
{
    are_plain(word) && !are_small_letters(word)
}

/// A name with a capital letter in it.
pub(super) fn name(alloc: Global, word: &[u8]) -> Result<Bytes, AllocError>
    ensures { IfOk result IsName }
{
    if is_camel(word) {
        Bytes::from_slice(alloc, word)
    } else {
        Err(AllocError)
    }
}

/// The path of a package.
pub(super) fn path(alloc: Global, text: &[u8]) -> Result<Bytes, AllocError>
    ensures { IfOk result IsPath }
{
    match Path::read(alloc, text) {
        Ok(path) => {
            let Path { text, .. } = path;
            Ok(text)
        }
        Err(_) => Err(AllocError),
    }
}
