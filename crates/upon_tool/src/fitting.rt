// Checks on contexts: whether files end without a fault on them, and the shape that these have.
ghost use Rattle.std.specs.Prelude.{◌≡◌, ◌≤◌, IfErr, IfOk, OnErr, true};
ghost use Rattle.upon_shape.specs.View.{shape_view};
ghost use Rattle.upon_calls.specs.Templates.{lent_pairs};
ghost use Rattle.upon_tool.specs.Calls.{RefusesCall};
ghost use Rattle.upon_tool.specs.Fitting.{texts_read, EachFits, FitsCall, WritesShape};
ghost use Rattle.upon_tool.specs.Work.{IsUnreadOf};
ghost use Rattle.upon_tool_io.specs.declared.arguments.Call.TheVariants.{Fit as FitAsked, Shape as ShapeAsked};

use crate::program::run_check;
use std::alloc::{AllocError, Global};
use std::io::{Read, Write};
use std::time::Clock;
use upon_tool_data::fault::ContextFault;
use upon_tool_data::sources::STANDARD;
use upon_tool_io::arguments::{FitCall, ShapeCall};
use upon_tool_io::files::ReadFault;
use upon_tool_io::sources::Sources;
use upon_tool_io::targets::Targets;
use upon_tool_messages::failure::{Failure, report};
use upon_tool_pages::contexts::shape_of;
use upon_tool_pages::fitting::{OnShape, fits};
use upon_tool_pages::sources::{FolderFile, files_in, text_of};
use upon_tool_pages::written::send_schema;

/// Checks files, and whether they end without a fault on contexts, and returns the status.
pub(crate) fn run_fit<
    'a,
    R: Sources + Clock + AllocGlobal,
    T: Targets,
    I: Read,
    O: Write,
    E: Write,
>(
    rt: &R,
    targets: &mut T,
    call: &FitCall<'a>,
    input: &mut I,
    out: &mut O,
    err: &mut E,
) -> Result<u8, Failure<'a>>
    ensures range { IfOk result (λ status. status ≤ 2) }
    ensures unsent { O.contents out.new ≡ O.contents out.old }
    ensures unwritten { T.written targets.new ≡ T.written targets.old }
    ensures ends { IfOk result (FitsCall (R.world rt.now) call.now (I.remaining input.old)) }
    ensures refused { IfErr result (RefusesCall (R.world rt.now) (FitAsked call.now) (I.remaining input.old)) }
{
    let check = &call.check;
    // Files are read twice.
    if check.files.contains(&STANDARD) {
        return Err(ContextFault::InputTwice.into());
    }
    let Some(shape) = shape_of(rt, &call.contexts, input, err)? else {
        return Ok(1);
    };
    let status = run_check(rt, targets, check, input, out, err)?;
    if status != 0 {
        return Ok(status);
    }
    let files = files_in(rt, check.templates, check.follow)?;
    let folder = sources_of(rt.alloc(), files.as_slice())?;
    let on = OnShape {
        folder: folder.as_slice(),
        escape: check.escape,
        standard: check.standard,
        shape: &shape,
    };
    if each_fits(rt, check.files.as_slice(), on, input, err)? {
        Ok(0)
    } else {
        Ok(1)
    }
}

// The names and texts of the files of a folder that are texts.
fn sources_of<'f>(
    alloc: Global,
    files: &'f [FolderFile],
) -> Result<Vec<(&'f str, &'f str)>, AllocError>
    ensures { IfOk result (λ sources. lent_pairs sources.items ≡ texts_read files.entry.now) }
{
    let mut sources = Vec::with_capacity(alloc, files.len())?;
    for file in files {
        match &file.read {
            Ok(text) => sources.push((file.name.as_str(), text.as_str()))?,
            Err(ReadFault::OutOfMemory) => return Err(AllocError),
            Err(_) => {}
        }
    }
    Ok(sources)
}

// Whether each file ends without a fault on each value of a shape.
fn each_fits<'a, R: Sources + AllocGlobal, I: Read, E: Write>(
    rt: &R,
    names: &[&'a str],
    on: OnShape<'_>,
    input: &mut I,
    err: &mut E,
) -> Result<bool, Failure<'a>>
    ensures fits { IfOk result (λ each. each ≡ true → EachFits (R.world rt.now)
        on.entry.escape on.entry.standard (lent_pairs on.entry.folder.now) (shape_view on.entry.shape.now) names.now) }
    ensures refused { IfErr result (IsUnreadOf (R.world rt.now) names.now) }
{
    let mut each = true;
    for name in names {
        let text = text_of(rt, name, input)?;
        let again = !each;
        each &= fits(rt.alloc(), on, (name, text.as_str()), again, err)?;
    }
    Ok(each)
}

/// Writes the shape of contexts as a JSON Schema, and returns the status.
pub(crate) fn run_shape<'a, R: Sources + AllocGlobal, I: Read, O: Write, E: Write>(
    rt: &R,
    call: &ShapeCall<'a>,
    input: &mut I,
    out: &mut O,
    err: &mut E,
) -> Result<u8, Failure<'a>>
    ensures range { IfOk result (λ status. status ≤ 2) }
    ensures ends { IfOk result (λ status.
        WritesShape (R.world rt.now) call.now (I.remaining input.old) status
        (O.contents out.old) (O.contents out.new)) }
    ensures unsent { OnErr result (O.contents out.new ≡ O.contents out.old) }
    ensures refused { IfErr result (RefusesCall (R.world rt.now) (ShapeAsked call.now) (I.remaining input.old)) }
{
    let alloc = rt.alloc();
    let Some(shape) = shape_of(rt, &call.contexts, input, err)? else {
        return Ok(1);
    };
    match send_schema(alloc, &shape, out) {
        Ok(()) => Ok(0),
        Err(failure) => Ok(report(alloc, &failure, err)),
    }
}
