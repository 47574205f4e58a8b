// The pictures of places where templates may fail.
ghost use Rattle.std.specs.Prelude.{◌≡◌, ◌<◌, [], IfOk, IsErr, OnOk, option_map, string_bytes, true, ◌↔◌};
ghost use Rattle.upon_types.specs.Pretty.{pretty};
ghost use Rattle.upon_types.specs.Span.{LiesIn, slice};
ghost use Rattle.upon_engine.specs.Texts.{Texts};
ghost use Rattle.upon_shape_check.specs.Doubted.{IsNoMemory, misfit_view, misfits_view};
ghost use Rattle.upon_shape_check.specs.Pictures.{ShowsWhy, ShowsPicture, ShowsPlace, ShowsPlaces, hinted, nothing_shown, or_somewhere, places_of, shown_view, spot_fault, spot_of, spots_of, text_or_empty, with_picture};

use crate::hints::{hint_of, with_hint};
use crate::reasons::{Known, TOO_DEEP, reason_of};
use crate::refusal::{Misfit, Refusal};
use std::alloc::{AllocError, Global};
use upon_engine::engine::Engine;
use upon_engine::texts::{AnyEngine, EngineTexts};
use upon_types::error::{Error, ErrorKind};
use upon_types::types::Span;

// How many places are shown.
const PICTURES: usize = 100;

// What is said if no place is known.
const SOMEWHERE: &str = "a page may fail on these contexts\n";

/// The pictures so far, a blank line between two, and how many more may be shown.
#[derive(Drop)]
pub struct Pictures {
    /// The pictures.
    pub text: String,
    /// How many more may be shown.
    pub left: usize,
}

impl Pictures {
    /// Creates none, of which a hundred may be shown.
    pub fn new(alloc: Global) -> Pictures
        ensures { shown_view result ≡ nothing_shown }
    {
        Pictures {
            text: String::new(alloc),
            left: PICTURES,
        }
    }
}

// A place in a template.
#[derive(Clone, Copy)]
struct Place<'t> {
    // The template's name.
    template: &'t str,
    // Its text.
    source: &'t str,
    // The place, in bytes of the text.
    span: Span,
}

/// Shows why a template is not accepted: each place that is not shown yet. It fails if there is no memory.
pub fn show_refusal(
    alloc: Global,
    known: &Known<'_, '_>,
    refusal: Refusal<'_>,
    pictures: &mut Pictures,
) -> Result<(), AllocError>
    ensures shown { OnOk result (string_bytes pictures.new.text ≡ [] → ⊥) }
    // Just these places are shown, in this order, each by a picture of it; or a sentence, if there is no picture.
    ensures pictures { OnOk result (ShowsWhy (⟦<AnyEngine as EngineTexts>⟧.texts known.now.engine.now)
        (places_of refusal.entry) (shown_view pictures.old) (shown_view pictures.new)) }
    ensures memory { IsNoMemory refusal.entry → IsErr result }
{
    show_places(alloc, known, refusal, pictures)?;
    say_somewhere(pictures)
}

// Shows the places for which a template is not accepted.
fn show_places(
    alloc: Global,
    known: &Known<'_, '_>,
    refusal: Refusal<'_>,
    pictures: &mut Pictures,
) -> Result<(), AllocError>
    ensures pictures { OnOk result (ShowsPlaces (⟦<AnyEngine as EngineTexts>⟧.texts known.now.engine.now)
        (places_of refusal.entry) (shown_view pictures.old) (shown_view pictures.new)) }
    ensures memory { IsNoMemory refusal.entry → IsErr result }
{
    match refusal {
        Refusal::NoTemplate => Ok(()),
        Refusal::Misfits(misfits) => show_misfits(alloc, known, misfits.as_slice(), pictures),
        Refusal::TooDeep(name, span) => {
            let place = place_in(known.engine, name, span);
            show(alloc, place, TOO_DEEP, None, pictures)
        }
        Refusal::Memory(error) => Err(error),
    }
}

// Says that a page may fail, if no place is shown.
fn say_somewhere(pictures: &mut Pictures) -> Result<(), AllocError>
    ensures said { OnOk result (shown_view pictures.new ≡ or_somewhere (shown_view pictures.old)) }
    ensures some { OnOk result (string_bytes pictures.new.text ≡ [] → ⊥) }
{
    if pictures.text.is_empty() {
        pictures.text.push_str(SOMEWHERE)?;
    }
    Ok(())
}

// Shows each of some misfits.
fn show_misfits(
    alloc: Global,
    known: &Known<'_, '_>,
    misfits: &[Misfit<'_>],
    pictures: &mut Pictures,
) -> Result<(), AllocError>
    ensures { OnOk result (ShowsPlaces (⟦<AnyEngine as EngineTexts>⟧.texts known.now.engine.now)
        (spots_of (misfits_view misfits.now)) (shown_view pictures.old) (shown_view pictures.new)) }
{
    for misfit in misfits {
        show_misfit(alloc, known, misfit, pictures)?;
    }
    Ok(())
}

// Shows a misfit, unless there are enough pictures.
fn show_misfit(
    alloc: Global,
    known: &Known<'_, '_>,
    misfit: &Misfit<'_>,
    pictures: &mut Pictures,
) -> Result<(), AllocError>
    ensures { OnOk result (ShowsPlace (⟦<AnyEngine as EngineTexts>⟧.texts known.now.engine.now)
        (spot_of (misfit_view misfit.now)) (shown_view pictures.old) (shown_view pictures.new)) }
{
    if pictures.left == 0 {
        return Ok(());
    }
    let place = place_in(known.engine, misfit.template, misfit.doubt.place);
    let unsure = &misfit.doubt.unsure;
    let reason = reason_of(alloc, known, unsure, written(place))?;
    let hint = hint_of(alloc, unsure, written(place))?;
    show(alloc, place, reason.as_str(), hint.as_deref(), pictures)
}

// A place in the template of a name.
fn place_in<'t>(engine: &'t Engine<'_>, template: &'t str, span: Span) -> Place<'t>
    ensures template { result.template.now ≡ template.now }
    ensures source { result.source.now
        ≡ text_or_empty ((⟦<AnyEngine as EngineTexts>⟧.texts engine.now).texts template.now) }
    ensures span { result.span ≡ span }
{
    let source = match engine.get_template(template) {
        Some(held) => held.source(),
        None => "",
    };
    Place {
        template,
        source,
        span,
    }
}

// What stands at a place.
fn written<'t>(place: Place<'t>) -> &'t str
    ensures { LiesIn place.entry.source.now place.entry.span
        → result.now ≡ slice place.entry.source.now place.entry.span }
{
    place
        .source
        .get(place.span.m..place.span.n)
        .unwrap_or_default()
}

// Shows what is wrong at a place, with a hint if there is one, unless that is shown already, or there are enough
// pictures.
fn show(
    alloc: Global,
    place: Place<'_>,
    reason: &str,
    hint: Option<&str>,
    pictures: &mut Pictures,
) -> Result<(), AllocError>
    ensures { (e : Texts) → place.entry.source.now ≡ text_or_empty (e.texts place.entry.template.now)
        → OnOk result (ShowsPlace e (record { template = place.entry.template.now; span = place.entry.span })
        (shown_view pictures.old) (shown_view pictures.new)) }
{
    if pictures.left == 0 || !lies_in(place.source, place.span) {
        return Ok(());
    }
    let picture = picture_of(alloc, place, reason, hint)?;
    add(picture.as_str(), pictures)
}

// The picture of what is wrong at a place, with a hint if there is one.
fn picture_of(
    alloc: Global,
    place: Place<'_>,
    reason: &str,
    hint: Option<&str>,
) -> Result<String, AllocError>
    requires { LiesIn place.source.now place.span }
    ensures { let fault = spot_fault place.entry.template.now place.entry.source.now place.entry.span reason.now in
        IfOk result
        (λ picture. string_bytes picture ≡ hinted (option_map (λ hint. hint.now) hint.entry) (pretty fault)) }
{
    let at = Some((place.source, place.span));
    let error = Error::from_parts(alloc, ErrorKind::Render, Some(reason), at);
    let error = error.with_name(alloc, place.template);
    if matches!(error.kind(), ErrorKind::OutOfMemory) {
        return Err(AllocError);
    }
    with_hint(error.pretty(alloc)?, hint)
}

// Adds a picture, unless it stands there already.
fn add(picture: &str, pictures: &mut Pictures) -> Result<(), AllocError>
    requires { 0 < pictures.old.left }
    ensures { OnOk result (ShowsPicture picture.now (shown_view pictures.old) (shown_view pictures.new)) }
{
    if pictures.text.contains(picture) {
        return Ok(());
    }
    pictures.left -= 1;
    append(picture, &mut pictures.text)
}

// Appends a picture to a text, with a blank line before it if it is not the first.
fn append(picture: &str, text: &mut String) -> Result<(), AllocError>
    ensures { OnOk result (string_bytes text.new ≡ with_picture (string_bytes text.old) picture.now) }
{
    if !text.is_empty() {
        text.push('\n')?;
    }
    text.push_str(picture)
}

// Whether a span lies in a text, and both its ends are between characters.
fn lies_in(source: &str, span: Span) -> bool
    ensures { (result ≡ true) ↔ LiesIn source.now span }
{
    span.m <= span.n && source.is_char_boundary(span.m) && source.is_char_boundary(span.n)
}
