// Signatures, one for each shape of items.
ghost use Rattle.std.specs.Prelude.{◌≡◌, ◌++◌, [], ◌∷◌, map, IfOk};
ghost use Rattle.upon_shape_spec.specs.Shape.{any_shape};
ghost use Rattle.upon_shape_check.specs.Callables.{signature_view};
ghost use Rattle.upon_std_shapes.specs.Forms.{shape_of_item, signature_by};

use crate::form::{Form, Item};
use std::alloc::{AllocError, Global};
use upon_shape_check::declared::Signature;

// Returns the signature of a function that takes and gives these, where items have this shape.
fn signature(
    alloc: Global,
    takes: &[Form],
    gives: Form,
    item: Item,
) -> Result<Signature, AllocError>
    ensures { IfOk result (λ s. signature_view s ≡ signature_by takes.now gives (shape_of_item item)) }
{
    let mut shapes = Vec::new(alloc);
    for form in takes {
        shapes.push(form.shape(alloc, item)?)?;
    }
    Ok(Signature {
        takes: shapes,
        gives: gives.shape(alloc, item)?,
    })
}

// Returns a signature for each of these shapes of items.
pub(crate) fn for_each(
    alloc: Global,
    items: &[Item],
    takes: &[Form],
    gives: Form,
) -> Result<Vec<Signature>, AllocError>
    ensures { IfOk result (λ rows. map signature_view rows.items
        ≡ map (λ item. signature_by takes.now gives (shape_of_item item)) items.now) }
{
    let mut rows = Vec::new(alloc);
    for item in items {
        rows.push(signature(alloc, takes, gives, *item)?)?;
    }
    Ok(rows)
}

// Returns the only signature of a function that takes and gives these, where items are any values.
pub(crate) fn only(alloc: Global, takes: &[Form], gives: Form) -> Result<Vec<Signature>, AllocError>
    ensures { IfOk result (λ rows. map signature_view rows.items ≡ signature_by takes.now gives any_shape ∷ []) }
{
    let mut rows = Vec::new(alloc);
    rows.push(signature(alloc, takes, gives, Item::Any)?)?;
    Ok(rows)
}

// Returns the signatures, and after them that of a function that takes and gives these, where items are any values.
pub(crate) fn and_of_any(
    alloc: Global,
    rows: Vec<Signature>,
    takes: &[Form],
    gives: Form,
) -> Result<Vec<Signature>, AllocError>
    ensures { IfOk result (λ more. map signature_view more.items
        ≡ map signature_view rows.items ++ (signature_by takes.now gives any_shape ∷ [])) }
{
    let mut rows = rows;
    rows.push(signature(alloc, takes, gives, Item::Any)?)?;
    Ok(rows)
}
