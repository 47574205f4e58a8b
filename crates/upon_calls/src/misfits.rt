// Whether pages are accepted on a shape, and the pictures of where they may fail.
ghost use Rattle.std.specs.Prelude.{◌≡◌, ◌⊎◌, [], IfErr, IfOk, OnOk, string_bytes};
ghost use Rattle.upon_shape.specs.View.{shape_view};
ghost use Rattle.upon_shape_check.specs.Callables.{declared_view};
ghost use Rattle.upon_shape_check.specs.Doubted.{IsUnsureOn};
ghost use Rattle.upon_shape_check.specs.EndsOn.{EndsOn};
ghost use Rattle.upon_shape_check.specs.Pictures.{shown_view};
ghost use Rattle.upon_needs.specs.Names.{texts};
ghost use Rattle.upon_calls.specs.Places.{IsShownOf, ShowsPlacesOfPage};
ghost use Rattle.upon_calls.specs.Work.{IsOneUnsure, PagesFit};
ghost use Rattle.upon_calls.specs.declared.failure.Failure.TheVariants.{OutOfMemory};

use crate::failure::Failure;
use crate::work::Pages;
use std::alloc::{AllocError, Global};
use upon_engine::engine::Engine;
use upon_engine::texts::{AnyEngine, EngineTexts};
use upon_shape::shape::Shape;
use upon_shape_check::accepts::accepts;
use upon_shape_check::pictures::{Pictures, show_refusal};
use upon_shape_check::reasons::Known;

/// Returns the pictures of where pages may fail on values of a shape, of at most a hundred places. The text is empty if
/// they may not, but that includes may be too deep one inside another.
pub(crate) fn misfits<'w>(
    alloc: Global,
    engine: &'w Engine<'_>,
    pages: Pages<'w>,
) -> Result<String, Failure>
    ensures fits { IfOk result
        (λ text. string_bytes text ≡ [] → PagesFit (⟦<AnyEngine as EngineTexts>⟧.texts engine.now) pages.entry) }
    ensures unsure { let held = ⟦<AnyEngine as EngineTexts>⟧.texts engine.now in
        IfOk result (λ text. (string_bytes text ≡ [] → ⊥) → IsOneUnsure held pages.entry) }
    // The text is that of just these places, page by page.
    ensures shows { IfOk result (λ text. IsShownOf (⟦<AnyEngine as EngineTexts>⟧.texts engine.now)
        (declared_view pages.entry.declared.now) (shape_view pages.entry.shape.now) (texts pages.entry.names.now)
        (string_bytes text)) }
    ensures memory { IfErr result (λ f. f ≡ OutOfMemory) }
{
    let Pages {
        names,
        declared,
        shape,
    } = pages;
    let mut pictures = Pictures::new(alloc);
    let known = Known { engine, declared };
    for name in names {
        show_page(alloc, &known, name, shape, &mut pictures)?;
    }
    Ok(pictures.text)
}

// Shows why a page is not accepted, unless it is.
fn show_page(
    alloc: Global,
    known: &Known<'_, '_>,
    name: &str,
    shape: &Shape,
    pictures: &mut Pictures,
) -> Result<(), AllocError>
    ensures ends { OnOk result (string_bytes pictures.new.text ≡ [] → (string_bytes pictures.old.text ≡ [])
        × EndsOn (⟦<AnyEngine as EngineTexts>⟧.texts known.now.engine.now) (declared_view known.now.declared.now)
        name.now (shape_view shape.now)) }
    ensures unsure { let held = ⟦<AnyEngine as EngineTexts>⟧.texts known.now.engine.now in OnOk result
        ((string_bytes pictures.new.text ≡ [] → ⊥) → (string_bytes pictures.old.text ≡ [] → ⊥)
        ⊎ IsUnsureOn held (declared_view known.now.declared.now) name.now (shape_view shape.now)) }
    ensures shows { OnOk result (ShowsPlacesOfPage (⟦<AnyEngine as EngineTexts>⟧.texts known.now.engine.now)
        (declared_view known.now.declared.now) (shape_view shape.now) name.now
        (shown_view pictures.old) (shown_view pictures.new)) }
{
    match accepts(alloc, known.engine, known.declared, name, shape) {
        Ok(_) => Ok(()),
        Err(refusal) => show_refusal(alloc, known, refusal, pictures),
    }
}
