// The hint below a picture: which names are there that are near to the one that is written.
ghost use Rattle.std.specs.Prelude.{◌≡◌, IfOk, option_map, string_bytes};
ghost use Rattle.upon_shape_check.specs.Pictures.{hinted};

use crate::doubt::Unsure;
use std::alloc::{AllocError, Global};
use upon_near::said::near_text;
use upon_shape::shape::{Keys, Shape};

/// Returns which names there are that are near to the one that is `written` where this is not sure. It is `None` if
/// none is near, or the name is there, or what is not sure is no name. It fails if there is no memory.
pub fn hint_of(
    alloc: Global,
    unsure: &Unsure<'_>,
    written: &str,
) -> Result<Option<String>, AllocError> {
    match unsure {
        Unsure::HasMember(shape) => near_member(alloc, shape, member_in(written)),
        Unsure::LoopHasMember
        | Unsure::TakesValues(_)
        | Unsure::HasText(_)
        | Unsure::HasItems(_)
        | Unsure::IsIncluded(..) => Ok(None),
    }
}

/// Returns a picture with the hint below it, if there is one. It fails if there is no memory.
pub fn with_hint(picture: String, hint: Option<&str>) -> Result<String, AllocError>
    ensures { IfOk result (λ text. string_bytes text
        ≡ hinted (option_map (λ hint. hint.now) hint.entry) (string_bytes picture)) }
{
    let mut picture = picture;
    if let Some(hint) = hint {
        picture.push_str("   = hint: ")?;
        picture.push_str(hint)?;
        picture.push('\n')?;
    }
    Ok(picture)
}

// The name or the index of a member, of which the place begins with a dot, and maybe a question mark before that.
fn member_in(written: &str) -> &str {
    written
        .trim_start_matches(|letter| matches!(letter, '?' | '.'))
        .trim_start()
}

// Which keys of the maps of a shape are near to a member.
fn near_member(alloc: Global, shape: &Shape, member: &str) -> Result<Option<String>, AllocError> {
    match shape {
        Shape::OneOf {
            keys: Some(keys),
            ..
        } if !is_index(member) => near_key(alloc, keys, member),
        _ => Ok(None),
    }
}

// Whether a member is an index, which no key is near to.
fn is_index(member: &str) -> bool {
    member.starts_with(|letter: char| letter.is_ascii_digit())
}

// Which keys are near to a name that is none of them.
fn near_key(alloc: Global, keys: &Keys<Shape>, name: &str) -> Result<Option<String>, AllocError> {
    let mut names = Vec::new(alloc);
    for key in &keys.named {
        names.push(key.name.as_str())?;
    }
    if names.contains(&name) {
        return Ok(None);
    }
    near_text(alloc, name, names.as_slice())
}
