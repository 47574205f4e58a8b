// How the lines that errors are told in are painted on a terminal.
ghost use Rattle.std.specs.Prelude.{◌≡◌, ◌++◌, option_map};
ghost use Rattle.upon_tool_messages.specs.Colors.{tint_code};

/// How a part of a line is painted.
#[derive(Clone, Copy, Debug, PartialEq, Eq)]
pub enum Tint {
    /// As other text is.
    Plain,
    /// As what is wrong.
    Message,
    /// As what is beside a picture.
    Margin,
    /// As the place that a picture shows.
    Place,
    /// As what begins a hint.
    Hint,
}

/// A line in two parts, each with its tint.
#[derive(Clone, Copy, Debug, PartialEq, Eq)]
pub struct Painted<'l> {
    /// How the first part is painted.
    pub first_tint: Tint,
    /// The first part.
    pub first: &'l str,
    /// How the rest is painted.
    pub rest_tint: Tint,
    /// The rest.
    pub rest: &'l str,
}

/// Returns what a terminal is sent before a part of this tint, if that is not plain. After it comes [`RESET`].
pub fn code(tint: Tint) -> Option<&'static str>
    ensures { option_map (λ code. code.now) result ≡ tint_code tint }
{
    match tint {
        Tint::Plain => None,
        Tint::Message => Some("\u{1b}[1;31m"),
        Tint::Margin => Some("\u{1b}[34m"),
        Tint::Place => Some("\u{1b}[36m"),
        Tint::Hint => Some("\u{1b}[32m"),
    }
}

/// What a terminal is sent after a part that is painted.
pub const RESET: &str = "\u{1b}[0m";

/// Returns the parts of a line, without its end, that is told of an error. A line of another form is plain.
pub fn parts_of(line: &str) -> Painted<'_>
    // They are the line: nothing is put in or left out.
    ensures { result.first.now ++ result.rest.now ≡ line.now }
{
    let (rest_len, first_tint, rest_tint) = form_of(line);
    let at = line.len().saturating_sub(rest_len);
    match line.split_at_checked(at) {
        Some((first, rest)) => Painted {
            first_tint,
            first,
            rest_tint,
            rest,
        },
        None => Painted {
            first_tint: Tint::Plain,
            first: "",
            rest_tint: Tint::Plain,
            rest: line,
        },
    }
}

// How long the rest of a line is, and how its parts are painted.
fn form_of(line: &str) -> (usize, Tint, Tint) {
    if is_kind(line) {
        return (0, Tint::Message, Tint::Plain);
    }
    if line.trim_start().starts_with("--> ") {
        return (0, Tint::Place, Tint::Plain);
    }
    if line.trim() == "|" {
        return (0, Tint::Margin, Tint::Plain);
    }
    if let Some(reason) = after_margin(line, "= reason: ") {
        return (reason.len(), Tint::Margin, Tint::Message);
    }
    if let Some(hint) = after_margin(line, "= hint:") {
        return (hint.len(), Tint::Hint, Tint::Plain);
    }
    match line.split_once(" | ") {
        Some((margin, text)) => (text.len(), margin_tint(margin), text_tint(margin, text)),
        None => (0, Tint::Plain, Tint::Plain),
    }
}

// The words with which an error begins that says its kind.
const KINDS: [&str; 7] = [
    "invalid syntax",
    "serialize error",
    "render error",
    "function error",
    "format error",
    "io error",
    "out of memory",
];

// Whether a line says the kind of an error, and its reason if it is in the same line.
fn is_kind(line: &str) -> bool {
    let (kind, _) = line.split_once(": ").unwrap_or((line, ""));
    KINDS.contains(&kind)
}

// What comes after a sign before which there are blanks alone.
fn after_margin<'l>(line: &'l str, sign: &str) -> Option<&'l str> {
    line.trim_start().strip_prefix(sign)
}

// How what is before the bar of a line is painted, by what it is.
fn margin_tint(margin: &str) -> Tint {
    if margin.trim().chars().all(|letter| letter.is_ascii_digit()) {
        Tint::Margin
    } else {
        Tint::Plain
    }
}

// How what is behind the bar of a line is painted.
fn text_tint(margin: &str, text: &str) -> Tint {
    if margin.trim().is_empty() && text.trim_start().starts_with('^') {
        Tint::Message
    } else {
        Tint::Plain
    }
}
