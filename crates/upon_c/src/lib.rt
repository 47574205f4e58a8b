// The engine for C: calls by bytes, whose texts are handed out in the caller's buffer.
//
// Each call answers a status, and writes the text of that to the begin of `out` and its length to `size`: 0, it was
// done; 1, the pictures of faults of templates; 2, why an argument is refused; 3, which argument is not UTF-8. If `out`
// is too small for the text, the status is 4, and `out` stays; if memory is out, it is 5, and `size` is 0.
#![tactic(auto)]

mod give;

ghost use Rattle.std.specs.Prelude.{◌≡◌, ◌≤◌, ◌<◌, codes};
ghost use Rattle.upon_calls.specs.Calls.{ChecksNotText, ChecksRefuse, ChecksRight, ChecksWrong, ListFaults, ListNotText, ListRefuses, ListsNeeds, RenderFaults, RenderNotText, RenderRefuses, Renders, RendersText, TextFaults, TextNotText, TextRefuses};
ghost use Rattle.upon_c.specs.Given.{GivesText};
ghost use Rattle.upon_c.specs.Handed.{HandsOut, HasNoRoom, IsAny, RefusalOf, NamesNoText};

use give::{give, give_failure};
use std::alloc::Global;
use upon_calls::version::version;
use upon_calls::{check, names, render};

/// Renders the template of a name on a context.
#[unsafe(no_mangle)]
pub extern "C" fn upon_render(
    alloc: Global,
    templates: &[u8],
    context: &[u8],
    name: &[u8],
    options: &[u8],
    out: &mut [u8],
    size: &mut usize,
) -> u8
    ensures range { result ≤ 5 }
    ensures rendered { result ≡ 0 → HandsOut (Renders templates.now context.now name.now options.now) size.new
        out.old out.new }
    ensures faulty { result ≡ 1 → HandsOut (RenderFaults templates.now context.now name.now options.now) size.new
        out.old out.new }
    ensures refused { result ≡ 2
        → HandsOut (RefusalOf (RenderRefuses templates.now context.now name.now options.now)) size.new out.old out.new }
    ensures not_text { result ≡ 3
        → HandsOut (NamesNoText (RenderNotText templates.now context.now name.now options.now)) size.new out.old
        out.new }
    // The buffer has no room for a text that one of these clauses describes.
    ensures small { result ≡ 4 → HasNoRoom
        (IsAny
        (Renders templates.now context.now name.now options.now)
        (RenderFaults templates.now context.now name.now options.now)
        (RenderRefuses templates.now context.now name.now options.now)
        (RenderNotText templates.now context.now name.now options.now))
        size.new
        out.old
        out.new }
    ensures memory { result ≡ 5 → (size.new ≡ 0) × (out.new ≡ out.old) }
{
    match render::render(alloc, templates, context, name, options) {
        Ok(text) => give(0, text.as_bytes(), out, size),
        Err(failure) => give_failure(alloc, failure, out, size),
    }
}

/// Renders the text of a template on a context.
#[unsafe(no_mangle)]
pub extern "C" fn upon_render_text(
    alloc: Global,
    source: &[u8],
    context: &[u8],
    options: &[u8],
    out: &mut [u8],
    size: &mut usize,
) -> u8
    ensures range { result ≤ 5 }
    ensures rendered { result ≡ 0 → HandsOut (RendersText source.now context.now options.now) size.new out.old out.new }
    ensures faulty { result ≡ 1 → HandsOut (TextFaults source.now context.now options.now) size.new out.old out.new }
    ensures refused { result ≡ 2
        → HandsOut (RefusalOf (TextRefuses source.now context.now options.now)) size.new out.old out.new }
    ensures not_text { result ≡ 3
        → HandsOut (NamesNoText (TextNotText source.now context.now options.now)) size.new out.old out.new }
    // The buffer has no room for a text that one of these clauses describes.
    ensures small { result ≡ 4 → HasNoRoom
        (IsAny
        (RendersText source.now context.now options.now)
        (TextFaults source.now context.now options.now)
        (TextRefuses source.now context.now options.now)
        (TextNotText source.now context.now options.now))
        size.new
        out.old
        out.new }
    ensures memory { result ≡ 5 → (size.new ≡ 0) × (out.new ≡ out.old) }
{
    match render::render_text(alloc, source, context, options) {
        Ok(text) => give(0, text.as_bytes(), out, size),
        Err(failure) => give_failure(alloc, failure, out, size),
    }
}

/// Checks templates: whether each has a tree, and no include in it names none of them.
#[unsafe(no_mangle)]
pub extern "C" fn upon_check(
    alloc: Global,
    templates: &[u8],
    options: &[u8],
    out: &mut [u8],
    size: &mut usize,
) -> u8
    ensures range { result ≤ 5 }
    ensures right { result ≡ 0 → HandsOut (ChecksRight templates.now options.now) size.new out.old out.new }
    ensures faulty { result ≡ 1 → HandsOut (ChecksWrong templates.now options.now) size.new out.old out.new }
    ensures refused { result ≡ 2
        → HandsOut (RefusalOf (ChecksRefuse templates.now options.now)) size.new out.old out.new }
    ensures not_text { result ≡ 3
        → HandsOut (NamesNoText (ChecksNotText templates.now options.now)) size.new out.old out.new }
    // The buffer has no room for a text that one of these clauses describes.
    ensures small { result ≡ 4 → HasNoRoom
        (IsAny
        (ChecksRight templates.now options.now)
        (ChecksWrong templates.now options.now)
        (ChecksRefuse templates.now options.now)
        (ChecksNotText templates.now options.now))
        size.new
        out.old
        out.new }
    ensures memory { result ≡ 5 → (size.new ≡ 0) × (out.new ≡ out.old) }
{
    match check::check(alloc, templates, options) {
        Ok(text) => give(0, text.as_bytes(), out, size),
        Err(failure) => give_failure(alloc, failure, out, size),
    }
}

/// Lists what the template of a name needs, as an object of JSON.
#[unsafe(no_mangle)]
pub extern "C" fn upon_names(
    alloc: Global,
    templates: &[u8],
    name: &[u8],
    options: &[u8],
    out: &mut [u8],
    size: &mut usize,
) -> u8
    ensures range { result ≤ 5 }
    ensures listed { result ≡ 0 → HandsOut (ListsNeeds templates.now name.now options.now) size.new out.old out.new }
    ensures faulty { result ≡ 1 → HandsOut (ListFaults templates.now name.now options.now) size.new out.old out.new }
    ensures refused { result ≡ 2
        → HandsOut (RefusalOf (ListRefuses templates.now name.now options.now)) size.new out.old out.new }
    ensures not_text { result ≡ 3
        → HandsOut (NamesNoText (ListNotText templates.now name.now options.now)) size.new out.old out.new }
    // The buffer has no room for a text that one of these clauses describes.
    ensures small { result ≡ 4 → HasNoRoom
        (IsAny
        (ListsNeeds templates.now name.now options.now)
        (ListFaults templates.now name.now options.now)
        (ListRefuses templates.now name.now options.now)
        (ListNotText templates.now name.now options.now))
        size.new
        out.old
        out.new }
    ensures memory { result ≡ 5 → (size.new ≡ 0) × (out.new ≡ out.old) }
{
    match names::names(alloc, templates, name, options) {
        Ok(text) => give(0, text.as_bytes(), out, size),
        Err(failure) => give_failure(alloc, failure, out, size),
    }
}

/// Says which version it is.
#[unsafe(no_mangle)]
pub extern "C" fn upon_version(out: &mut [u8], size: &mut usize) -> u8
    ensures { GivesText 0 (codes "0.11.0") result size.new out.old out.new }
{
    give(0, version().as_bytes(), out, size)
}
