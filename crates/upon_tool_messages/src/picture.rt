// What is told of errors: of a long line, what is around the place that is marked.
use crate::terminal::is_spelled;
use std::alloc::{AllocError, Global};
use std::fmt::Write;
use unicode_width::UnicodeWidthChar;

/// How many faults of a text are shown with their pictures, for each of which the text is walked from its begin.
pub(crate) const PICTURES: usize = 100;

// How many columns of a line are shown before the place that is marked, and from its begin on.
const BEFORE: usize = 60;

const AFTER: usize = 100;

// What stands for the columns that are left out.
const MORE: char = '…';

/// Returns what is told of an error, with a long line cut to what is around the place that is marked. The line has its
/// control characters spelled, as the marks below it have to know. It fails if there is no memory.
pub fn shown(alloc: Global, text: &str) -> Result<String, AllocError> {
    let mut shown = String::new(alloc);
    let mut last: Option<&str> = None;
    for line in text.lines() {
        match (last, marks_of(line)) {
            (Some(marked), Some(marks)) => {
                push_window(alloc, marked, line, marks, &mut shown)?;
                last = None;
            }
            (Some(before), None) => {
                push_line(before, &mut shown)?;
                last = Some(line);
            }
            (None, _) => last = Some(line),
        }
    }
    if let Some(line) = last {
        push_line(line, &mut shown)?;
    }
    Ok(shown)
}

// The blanks and marks of a line of a picture, if it has marks.
fn marks_of(line: &str) -> Option<&str> {
    let (margin, marks) = line.split_once(" | ")?;
    let is_marked = margin.trim().is_empty() && marks.trim_start().starts_with('^');
    if is_marked { Some(marks) } else { None }
}

// Puts a line as it is.
fn push_line(line: &str, shown: &mut String) -> Result<(), AllocError> {
    shown.push_str(line)?;
    shown.push('\n')
}

// Puts a letter, or how it is spelled.
fn push_letter(letter: char, shown: &mut String) -> Result<(), AllocError> {
    if is_spelled(letter) {
        match write!(shown, "\\u{{{:x}}}", u32::from(letter)) {
            Ok(()) => Ok(()),
            Err(_) => Err(AllocError),
        }
    } else {
        shown.push(letter)
    }
}

// How many columns a letter has in a picture, and as it is shown.
fn widths(letter: char) -> (usize, usize) {
    match letter.width() {
        Some(width) => (width, width),
        None if letter == '\t' => (1, 1),
        None if u32::from(letter) < 0x10 => (1, "\\u{0}".len()),
        None => (1, "\\u{00}".len()),
    }
}

// What is around a place in a line.
#[derive(Drop)]
struct Window {
    // What is before the place, with its columns, and from it on.
    before: String,
    before_width: usize,
    after: String,
    after_width: usize,
    // Whether something is left out at the begin, and at the end.
    is_cut_before: bool,
    is_cut_after: bool,
}

// The window of a text around a column, counted from 0.
fn window_around(alloc: Global, text: &str, column: usize) -> Result<Window, AllocError> {
    let mut window = Window {
        before: String::new(alloc),
        before_width: 0,
        after: String::new(alloc),
        after_width: 0,
        is_cut_before: false,
        is_cut_after: false,
    };
    let mut at = 0usize;
    for letter in text.chars() {
        let (width, shown) = widths(letter);
        if at < column {
            if at.saturating_add(BEFORE) < column {
                window.is_cut_before = true;
            } else {
                push_letter(letter, &mut window.before)?;
                window.before_width = window.before_width.saturating_add(shown);
            }
        } else if at < column.saturating_add(AFTER) {
            push_letter(letter, &mut window.after)?;
            window.after_width = window.after_width.saturating_add(shown);
        } else {
            window.is_cut_after = true;
        }
        at = at.saturating_add(width);
    }
    Ok(window)
}

// Puts the line of a picture that is marked, and the line with its marks.
fn push_window(
    alloc: Global,
    marked: &str,
    line: &str,
    marks: &str,
    shown: &mut String,
) -> Result<(), AllocError> {
    let (Some((number, text)), Some((margin, _))) = (
        marked.split_once(" | "),
        line.split_once(" | "),
    ) else {
        push_line(marked, shown)?;
        return push_line(line, shown);
    };
    let signs = marks.trim_start();
    let window = window_around(alloc, text, marks.len().saturating_sub(signs.len()))?;
    push_marked(number, &window, shown)?;
    push_marks(margin, signs, &window, shown)
}

// Puts the line of a window, with its number.
fn push_marked(number: &str, window: &Window, shown: &mut String) -> Result<(), AllocError> {
    shown.push_str(number)?;
    shown.push_str(" | ")?;
    if window.is_cut_before {
        shown.push(MORE)?;
    }
    shown.push_str(window.before.as_str())?;
    shown.push_str(window.after.as_str())?;
    if window.is_cut_after {
        shown.push(MORE)?;
    }
    shown.push('\n')
}

// Puts the marks below a window, as far as it shows what they mark.
fn push_marks(
    margin: &str,
    signs: &str,
    window: &Window,
    shown: &mut String,
) -> Result<(), AllocError> {
    shown.push_str(margin)?;
    shown.push_str(" | ")?;
    if window.is_cut_before {
        shown.push(' ')?;
    }
    for _ in 0..window.before_width {
        shown.push(' ')?;
    }
    match signs.get(..window.after_width) {
        Some(first) if window.is_cut_after => shown.push_str(first)?,
        _ => shown.push_str(signs)?,
    }
    shown.push('\n')
}
