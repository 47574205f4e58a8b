// Paths of templates: segments joined by `/`, none of them empty, `.` or `..`.
ghost use Rattle.std.specs.Prelude.{◌≡◌, ◌∷◌, ◌<◌, [], Some, None, cond, length, IfOk, IfNone, IfSome, option_map, string_bytes};
ghost use Rattle.std.specs.List.{join_with_byte};
ghost use Rattle.upon_store.specs.Paths.{found_path, folder_of, is_path, is_segment, path_text, resolved, segments, path_step, path_steps, path_texts};

use std::alloc::{AllocError, Global};

/// Returns whether a text is a path.
pub fn is_path(text: &str) -> bool
    ensures { result ≡ is_path text.now }
{
    let mut rest = text;
    while let Some((segment, after)) = cut(rest) {
        if !is_segment(segment) {
            return false;
        }
        rest = after;
    }
    is_segment(rest)
}

/// Returns the path that a name denotes in the folder of a path; `None` if it denotes none. A leading `/` starts
/// from the top; `.` adds nothing, and `..` takes the last segment away.
pub fn resolve(alloc: Global, path: &str, name: &str) -> Result<Option<String>, AllocError>
    ensures { IfOk result (λ found. option_map string_bytes found ≡ resolved path.now name.now) }
{
    match name.strip_prefix('/') {
        Some(rest) => walk(alloc, Vec::new(alloc), rest),
        None => {
            let folder = folder_of(alloc, path)?;
            walk(alloc, folder, name)
        }
    }
}

// What lies before the first slash of a text and what follows it; `None` where there is no slash.
fn cut(text: &str) -> Option<(&str, &str)>
    ensures whole { IfNone result (segments text.now ≡ text.now ∷ []) }
    ensures parts { IfSome result (λ x. segments text.now ≡ x.0.now ∷ segments x.1.now) }
    ensures shorter { IfSome result (λ x. length x.1.now < length text.now) }
{
    text.split_once('/')
}

fn is_segment(text: &str) -> bool
    ensures { result ≡ is_segment text.now }
{
    !(text == "" || text == "." || text == "..")
}

// The segments of the folder that a path lies in: all but its last.
fn folder_of<'a>(alloc: Global, path: &'a str) -> Result<Vec<&'a str>, AllocError>
    ensures { IfOk result (λ v. path_texts v.items ≡ folder_of path.now) }
{
    let mut folder = Vec::new(alloc);
    let mut rest = path;
    while let Some((segment, after)) = cut(rest) {
        folder.push(segment)?;
        rest = after;
    }
    Ok(folder)
}

// The path where the segments of a name lead from a folder.
fn walk<'a>(
    alloc: Global,
    mut folder: Vec<&'a str>,
    name: &'a str,
) -> Result<Option<String>, AllocError>
    ensures { IfOk result (λ found. option_map string_bytes found
        ≡ found_path (path_steps (path_texts folder.entry.items) (segments name.now))) }
{
    let mut rest = name;
    while let Some((segment, after)) = cut(rest) {
        if !step(&mut folder, segment)? {
            return Ok(None);
        }
        rest = after;
    }
    if step(&mut folder, rest)? {
        path_text(alloc, &folder)
    } else {
        Ok(None)
    }
}

// Goes on by one segment. The answer is whether it leads anywhere.
fn step<'a>(folder: &mut Vec<&'a str>, segment: &'a str) -> Result<bool, AllocError>
    ensures { IfOk result (λ leads. path_step (path_texts folder.old.items) segment.now
        ≡ cond leads (Some (path_texts folder.new.items)) None) }
{
    if segment == "" {
        return Ok(false);
    }
    if segment == "." {
        return Ok(true);
    }
    if segment == ".." {
        return Ok(folder.pop().is_some());
    }
    folder.push(segment)?;
    Ok(true)
}

// The segments joined by `/`; `None` where there is none.
fn path_text(alloc: Global, segments: &[&str]) -> Result<Option<String>, AllocError>
    ensures { IfOk result (λ found. option_map string_bytes found ≡ path_text (path_texts segments.now)) }
{
    match segments.split_first() {
        Some((first, others)) => Ok(Some(joined(alloc, first, others)?)),
        None => Ok(None),
    }
}

fn joined(alloc: Global, first: &str, others: &[&str]) -> Result<String, AllocError>
    ensures { IfOk result (λ text. string_bytes text ≡ join_with_byte 47 (first.now ∷ path_texts others.now)) }
{
    let mut text = String::from_str(alloc, first)?;
    for segment in others {
        text.push_str("/")?;
        text.push_str(segment)?;
    }
    Ok(text)
}
