// What is declared of what templates can call, and of how values are written.
ghost use Rattle.std.specs.Prelude.{◌≡◌, ℕ, List, IfOk};
ghost use Rattle.upon_meaning_spec.specs.DefaultFormat.{formatter_or_default};
ghost use Rattle.upon_shape_spec.specs.Declared.{KeepsDeclared};
ghost use Rattle.upon_shape.specs.View.{shape_view};
ghost use Rattle.upon_shape_check.specs.Callables.{declared_view};
ghost use Rattle.upon_calls.specs.Asked.{asked_by};
ghost use Rattle.upon_calls.specs.Escaping.{written_shape};
ghost use Rattle.upon_calls.specs.Filled.{engine_for};
ghost use Rattle.upon_calls.specs.Unsure.{declared_as, declared_before};

use crate::escaping::Language;
use crate::functions::standard;
use crate::options::Options;
use std::alloc::{AllocError, Global};
use upon_shape::shape::{Plain, Shape};
use upon_shape_check::declared::Declared;
use upon_std_shapes::declare::declare_standard;

/// Returns what is declared of the callables of an engine that these options fill, and of how it writes values: it
/// keeps that. It fails if there is no memory.
pub(crate) fn declared_for(alloc: Global, options: &Options) -> Result<Declared, AllocError>
    ensures declared { IfOk result (λ d. declared_view d ≡ declared_as (asked_by options.now)) }
    ensures kept { let engine = engine_for (asked_by options.now) in IfOk result
        (λ d. KeepsDeclared (declared_view d) engine.callables (formatter_or_default engine.default_formatter)) }
{
    let mut declared = declared_into(alloc, options.escape)?;
    declare_standard(alloc, standard(options.functions), &mut declared)?;
    Ok(declared)
}

// What is declared without functions: the formatter `verbatim`, if values are written into a language.
fn declared_into(alloc: Global, escape: Option<Language>) -> Result<Declared, AllocError>
    ensures callables { IfOk result
        (λ d. (name : List ℕ) → (declared_view d).callables name ≡ declared_before escape name) }
    ensures default { IfOk result (λ d. (declared_view d).default_formats ≡ written_shape escape) }
{
    let mut declared = Declared::new(alloc, written_into(escape));
    if escape.is_none() {
        return Ok(declared);
    }
    let name = String::from_str(alloc, "verbatim")?;
    declared.add_formatter(name, Shape::shown())?;
    Ok(declared)
}

// The values that are written into a language, or as they are, whatever they are.
fn written_into(escape: Option<Language>) -> Shape
    ensures { shape_view result ≡ written_shape escape }
{
    match escape {
        Some(Language::Shell) => Shape::plain(Plain {
            none: true,
            truth: true,
            integer: true,
            text: false,
        }),
        Some(Language::Html) | Some(Language::Json) | Some(Language::Yaml) | None => Shape::shown(),
    }
}
