// Faults, and the texts that report each.
ghost use Rattle.std.specs.Prelude.{◌≡◌, ◌⊎◌, ◌++◌, Some, None, IsSome, IfOk, option_map, option_and_then, string_bytes, ◌↔◌};
ghost use Rattle.std.specs.Option.{ForSome};
ghost use Rattle.upon_types.specs.Span.{LiesIn};
ghost use Rattle.upon_types.specs.Fault.{io, format, line, fault_of_kind, out_of_memory, fault_at, fault_with_name, OrMemory};
ghost use Rattle.upon_types.specs.Cause.{cause_text};
ghost use Rattle.upon_types.specs.Error.{cause_of, error_kind, fault_of, io_error_in, kind_of, picture_of, reason_cause, reason_words, KeepsCause, KeepsKind};
ghost use Rattle.upon_types.specs.Picture.{picture};
ghost use Rattle.upon_types.specs.Pretty.{pretty};

use crate::types::Span;
use cause::Cause;
use excerpt::Excerpt;
use reason::{Reason, Said};
use std::alloc::{AllocError, AllocFailed, Global};
use std::{fmt, io};

pub mod cause;
mod excerpt;
mod pretty;
pub mod reason;

/// What kind of fault an error is.
#[derive(Debug, Drop)]
pub enum ErrorKind {
    /// The text is no template.
    Syntax,
    /// A context could not be turned into a value.
    Serialize,
    /// A template could not be rendered.
    Render,
    /// A function refused its arguments.
    Function,
    /// A value could not be written.
    Format,
    /// A writer failed, with this error.
    Io(io::Error),
    /// There was no memory.
    OutOfMemory,
}

/// Why a template was refused, or where its rendering ended.
#[derive(Debug, Drop)]
pub struct Error {
    kind: ErrorKind,
    details: Option<Box<Details>>,
}

/// What an error says beside its kind. It is in a box, so that a result that may be an error is small.
#[derive(Debug, Drop)]
struct Details {
    name: Option<String>,
    reason: Option<Said>,
    span: Option<Span>,
    excerpt: Option<Excerpt>,
}

/// What a call gives that can end with an [`Error`].
pub type Result<T> = std::result::Result<T, Error>;

impl Error {
    /// Creates the error of a kind, with a reason and a span in a source, if they are given. It has no template's
    /// name. If there is no memory for what it says beside the kind, the kind is `OutOfMemory`.
    pub fn from_parts(
        alloc: Global,
        kind: ErrorKind,
        reason: Option<&str>,
        at: Option<(&str, Span)>,
    ) -> Error
        requires { ForSome at (λ shown. LiesIn shown.0.now shown.1) }
        ensures fault { OrMemory
            (fault_at
            (kind_of kind)
            (option_map (λ r. r.now) reason.entry)
            (option_map (λ shown. (shown.0.now, shown.1)) at.entry))
            (fault_of result) }
        ensures kind { KeepsKind kind result }
        ensures cause { KeepsCause None result }
    {
        match copied(alloc, reason) {
            Ok(reason) => Error::from_owned_parts(alloc, kind, reason, at),
            Err(e) => e.into(),
        }
    }

    /// Creates the same error as [`Error::from_parts`], with a reason that is moved in. An error that says its kind
    /// alone takes no memory.
    pub fn from_owned_parts(
        alloc: Global,
        kind: ErrorKind,
        reason: Option<String>,
        at: Option<(&str, Span)>,
    ) -> Error
        requires { ForSome at (λ shown. LiesIn shown.0.now shown.1) }
        ensures fault { OrMemory
            (fault_at
            (kind_of kind)
            (option_map string_bytes reason)
            (option_map (λ shown. (shown.0.now, shown.1)) at.entry))
            (fault_of result) }
        ensures kind { KeepsKind kind result }
        ensures bare { reason ≡ None → at.entry ≡ None → fault_of result ≡ fault_of_kind (kind_of kind) }
        ensures cause { KeepsCause None result }
    {
        match reason {
            Some(text) => Error::saying(alloc, kind, Some(Said::of_text(text)), at),
            None => Error::saying(alloc, kind, None, at),
        }
    }

    /// Creates the error of a kind with this cause, and a span in a source, if it is given. It has no template's name.
    /// If there is no memory for what it says beside the kind, the kind is `OutOfMemory`.
    pub fn from_cause(
        alloc: Global,
        kind: ErrorKind,
        cause: Cause,
        at: Option<(&str, Span)>,
    ) -> Error
        requires { ForSome at (λ shown. LiesIn shown.0.now shown.1) }
        ensures fault { OrMemory
            (fault_at
            (kind_of kind)
            (Some (cause_text cause))
            (option_map (λ shown. (shown.0.now, shown.1)) at.entry))
            (fault_of result) }
        ensures kind { KeepsKind kind result }
        ensures cause { KeepsCause (Some cause) result }
    {
        match Said::of_cause(alloc, cause) {
            Ok(said) => Error::saying(alloc, kind, Some(said), at),
            Err(e) => e.into(),
        }
    }

    /// Creates the error of a kind that says this, at a span in a source, if it is given, as
    /// [`Error::from_owned_parts`] and [`Error::from_cause`] do.
    pub fn from_reason(
        alloc: Global,
        kind: ErrorKind,
        reason: Reason,
        at: Option<(&str, Span)>,
    ) -> Error
        requires { ForSome at (λ shown. LiesIn shown.0.now shown.1) }
        ensures fault { OrMemory
            (fault_at
            (kind_of kind)
            (reason_words reason)
            (option_map (λ shown. (shown.0.now, shown.1)) at.entry))
            (fault_of result) }
        ensures kind { KeepsKind kind result }
        ensures cause { KeepsCause (reason_cause reason) result }
    {
        match reason {
            Reason::None => Error::from_owned_parts(alloc, kind, None, at),
            Reason::Text(text) => Error::from_owned_parts(alloc, kind, Some(text), at),
            Reason::Cause(cause) => Error::from_cause(alloc, kind, Box::into_inner(cause), at),
        }
    }

    // The error of a kind that says this, at a span in a source, if they are given.
    fn saying(
        alloc: Global,
        kind: ErrorKind,
        reason: Option<Said>,
        at: Option<(&str, Span)>,
    ) -> Error
        requires { ForSome at (λ shown. LiesIn shown.0.now shown.1) }
        ensures fault { OrMemory
            (fault_at
            (kind_of kind)
            (option_map (λ said. string_bytes said.text) reason)
            (option_map (λ shown. (shown.0.now, shown.1)) at.entry))
            (fault_of result) }
        ensures kind { KeepsKind kind result }
        ensures bare { reason ≡ None → at.entry ≡ None → fault_of result ≡ fault_of_kind (kind_of kind) }
        ensures cause { KeepsCause (option_and_then (λ said. said.cause) reason) result }
    {
        if reason.is_none() && at.is_none() {
            return Error {
                kind,
                details: None,
            };
        }
        let (span, excerpt) = match at {
            Some((source, span)) => match Excerpt::of(alloc, source, span) {
                Ok(excerpt) => (Some(span), Some(excerpt)),
                Err(e) => return e.into(),
            },
            None => (None, None),
        };
        let details = Details {
            name: None,
            reason,
            span,
            excerpt,
        };
        match Box::new(alloc, details) {
            Ok(details) => Error {
                kind,
                details: Some(details),
            },
            Err(e) => e.into(),
        }
    }

    /// Returns the same fault in the template of this name. If there is no memory for that, the kind is
    /// `OutOfMemory`.
    pub fn with_name(self, alloc: Global, name: &str) -> Error
        ensures fault { OrMemory (fault_with_name name.now (fault_of self)) (fault_of result) }
        ensures kind { KeepsKind (error_kind self) result }
        ensures cause { KeepsCause (cause_of self) result }
    {
        match self.named(alloc, name) {
            Ok(error) => error,
            Err(e) => e.into(),
        }
    }

    fn named(self, alloc: Global, name: &str) -> std::result::Result<Error, AllocError>
        ensures fault { IfOk result (λ named. fault_of named ≡ fault_with_name name.now (fault_of self)) }
        ensures kind { IfOk result (λ named. error_kind named ≡ error_kind self) }
        ensures cause { IfOk result (λ named. cause_of named ≡ cause_of self) }
    {
        let name = Some(String::from_str(alloc, name)?);
        let Error { kind, details } = self;
        let details = match details {
            Some(mut details) => {
                details.name = name;
                details
            }
            None => {
                let details = Details {
                    name,
                    reason: None,
                    span: None,
                    excerpt: None,
                };
                Box::new(alloc, details)?
            }
        };
        Ok(Error {
            kind,
            details: Some(details),
        })
    }

    /// Returns what kind of fault it is.
    pub fn kind(&self) -> &ErrorKind
        ensures kind { result.now ≡ error_kind self.now }
        ensures fault { kind_of result.now ≡ (fault_of self.now).kind }
    {
        &self.kind
    }

    /// Returns the name of the template in which it lies, if it bears one.
    pub fn template_name(&self) -> Option<&str>
        ensures { option_map (λ name. name.now) result ≡ (fault_of self.now).name }
    {
        as_text(&self.details.as_ref()?.name)
    }

    /// Returns what is wrong, beside the kind.
    pub fn reason(&self) -> Option<&str>
        ensures { option_map (λ reason. reason.now) result ≡ (fault_of self.now).reason }
    {
        match &self.details.as_ref()?.reason {
            Some(said) => Some(said.text.as_str()),
            None => None,
        }
    }

    /// Returns why there is a fault, if that is one of the engine's own rows. A text that a source, a function, a
    /// formatter or serde gave is none.
    pub fn cause(&self) -> Option<&Cause>
        ensures cause { option_map (λ cause. cause.now) result ≡ cause_of self.now }
        ensures reason { ForSome result (λ cause. (fault_of self.now).reason ≡ Some (cause_text cause.now)) }
    {
        match &self.details.as_ref()?.reason {
            Some(said) => said.cause.as_ref(),
            None => None,
        }
    }

    /// Returns the span in the template's source where it lies, in bytes.
    pub fn place(&self) -> Option<Span>
        ensures { result ≡ (fault_of self.now).span }
    {
        self.details.as_ref()?.span
    }

    /// Returns the fault in several lines, with a picture of its span: the line of the source in which it begins, and
    /// marks under it. Without a reason or a span it is the one line. It fails if there is no memory for the text.
    pub fn pretty(&self, alloc: Global) -> std::result::Result<String, AllocError>
        ensures { IfOk result (λ text. string_bytes text ≡ pretty (fault_of self.now)) }
    {
        match (self.reason(), self.excerpt()) {
            (Some(reason), Some(excerpt)) => {
                pretty::with_excerpt(alloc, &self.kind, self.template_name(), reason, excerpt)
            }
            _ => self.to_string(alloc),
        }
    }

    /// Returns the line of the source in which the span begins: what is before the span, and what is from there on.
    pub fn marked_line(&self) -> Option<(&str, &str)>
        ensures { ForSome result (λ parts. option_map (λ picture. picture.line) (fault_of self.now).picture
            ≡ Some (parts.0.now ++ parts.1.now)) }
    {
        match self.excerpt() {
            Some(excerpt) => excerpt.line.as_str().split_at_checked(excerpt.before),
            None => None,
        }
    }

    fn excerpt(&self) -> Option<&Excerpt>
        ensures { option_map (λ excerpt. picture_of excerpt.now) result ≡ (fault_of self.now).picture }
    {
        self.details.as_ref()?.excerpt.as_ref()
    }

    /// Returns the writer's error, if that is the fault.
    pub fn io_error(&self) -> Option<&io::Error>
        ensures some { IsSome result ↔ ((fault_of self.now).kind ≡ io) }
        ensures error { option_map (λ e. e.now) result ≡ io_error_in (error_kind self.now) }
    {
        match &self.kind {
            ErrorKind::Io(error) => Some(error),
            _ => None,
        }
    }
}

fn copied(alloc: Global, text: Option<&str>) -> std::result::Result<Option<String>, AllocError>
    ensures { IfOk result (λ copy. option_map string_bytes copy ≡ option_map (λ t. t.now) text.entry) }
{
    match text {
        Some(text) => Ok(Some(String::from_str(alloc, text)?)),
        None => Ok(None),
    }
}

fn as_text(text: &Option<String>) -> Option<&str>
    ensures { option_map (λ t. t.now) result ≡ option_map string_bytes text.now }
{
    match text {
        Some(text) => Some(text.as_str()),
        None => None,
    }
}

impl From<AllocError> for Error {
    ghost from_gives = { λ _ error. fault_of error ≡ out_of_memory };

    fn from(_: AllocError) -> Error {
        Error {
            kind: ErrorKind::OutOfMemory,
            details: None,
        }
    }
}

impl<T: Drop> From<AllocFailed<T>> for Error {
    ghost from_gives = { λ _ error. fault_of error ≡ out_of_memory };

    fn from(_: AllocFailed<T>) -> Error {
        AllocError.into()
    }
}

impl From<io::Error> for Error {
    ghost use Rattle.upon_types.specs.declared.error.ErrorKind.TheVariants.{Io};

    ghost from_gives = { λ given error. (fault_of error ≡ fault_of_kind io) × (error_kind error ≡ Io given) };

    fn from(error: io::Error) -> Error {
        Error {
            kind: ErrorKind::Io(error),
            details: None,
        }
    }
}

impl From<fmt::Error> for Error {
    ghost from_gives = { λ _ error. fault_of error ≡ fault_of_kind format };

    fn from(_: fmt::Error) -> Error {
        Error {
            kind: ErrorKind::Format,
            details: None,
        }
    }
}

impl fmt::Display for ErrorKind {
    ghost use Rattle.upon_types.specs.Fault.{kind_text};
    ghost use Rattle.upon_types.specs.Error.{kind_of};

    ghost output = { λ kind. Some (kind_text (kind_of kind)) };

    fn fmt<W: fmt::Write>(&self, f: &mut fmt::Formatter<W>) -> fmt::Result {
        let text = match self {
            ErrorKind::Syntax => "invalid syntax",
            ErrorKind::Serialize => "serialize error",
            ErrorKind::Render => "render error",
            ErrorKind::Function => "function error",
            ErrorKind::Format => "format error",
            ErrorKind::Io(_) => "io error",
            ErrorKind::OutOfMemory => "out of memory",
        };
        write!(f, "{text}")
    }
}

impl fmt::Display for Error {
    ghost output = { λ error. Some (line (fault_of error)) };

    fn fmt<W: fmt::Write>(&self, f: &mut fmt::Formatter<W>) -> fmt::Result {
        let kind = &self.kind;
        match self.reason() {
            Some(reason) => write!(f, "{kind}: {reason}"),
            None => write!(f, "{kind}"),
        }
    }
}
