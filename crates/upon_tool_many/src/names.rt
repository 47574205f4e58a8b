// The names of files in a folder: which ones stay inside, which file a page is written to, and names that are there
// twice.
ghost use Rattle.std.specs.Prelude.{◌≡◌, [], None, Some, nat_eq, option_map, slice_index_or, string_bytes, IfOk, if◌then◌else◌};
ghost use Rattle.std.specs.List.{ends_with};
ghost use Rattle.upon_tool_many.specs.Names.{extension, is_file_name, stays_inside, page_name, page_names, without_extension, IsFirstAgain};

use crate::pages::Page;
use std::alloc::{AllocError, Global};
use std::collections::BTreeMap;

/// Returns whether a name is one of a file in a folder or in its subfolders: each part of it, with slashes between
/// them, is the name of a file.
pub fn is_inside(name: &str) -> bool
    ensures { result ≡ stays_inside name.now }
{
    name.split('/').all(|part| is_file_name(part))
}

// Whether a part of a path is the name of a file in its folder: it is not empty and has no NUL, and is neither the
// folder itself nor the one above it.
fn is_file_name(part: &str) -> bool
    ensures { result ≡ is_file_name part.now }
{
    !part.is_empty() && part != "." && part != ".." && !part.as_bytes().contains(&0)
}

/// Returns the name of the page that a template's file is rendered to: its name without the extension `.upon`. It is
/// `None` if it has another extension or none.
pub fn page_name(path: &str) -> Option<&str>
    ensures { option_map (λ name. name.now) result ≡ page_name path.now }
{
    let name = without_extension(path)?;
    if name.is_empty() || name.ends_with("/") {
        return None;
    }
    Some(name)
}

// The path without the extension of a template, if it has that.
fn without_extension(path: &str) -> Option<&str>
    ensures { option_map (λ name. name.now) result
        ≡ (if ends_with nat_eq path.now extension then Some (without_extension path.now) else None) }
{
    path.strip_suffix(".upon")
}

/// Returns the places of the first page with the name of an earlier one: of that one, and its own. It fails if there is
/// no memory.
pub fn first_again<T>(
    alloc: Global,
    pages: &[Page<T>],
) -> Result<Option<(usize, usize)>, AllocError>
    ensures { IfOk result (IsFirstAgain (page_names pages.now)) }
{
    let mut places: BTreeMap<&str, usize> = BTreeMap::new(alloc);
    for (place, page) in pages.iter().enumerate() {
        if let Some(first) = places.insert(page.name.as_str(), place)? {
            return Ok(Some((first, place)));
        }
    }
    Ok(None)
}

/// Returns the name of the page at a place; no name, if there is no page. It fails if there is no memory.
pub fn name_at<T>(alloc: Global, pages: &[Page<T>], place: usize) -> Result<String, AllocError>
    ensures { IfOk result (λ name. string_bytes name ≡ slice_index_or (page_names pages.now) place []) }
{
    match pages.get(place) {
        Some(page) => page.name.clone(),
        None => Ok(String::new(alloc)),
    }
}
