// What the program says to its user, without control characters: names and templates may have them, and a terminal
// would obey. With colors, a line is held until its end, as its form says how it is painted.
ghost use Rattle.std.specs.Prelude.{◌≡◌, ◌<◌, ◌∷◌, [], ◌++◌, length, true, false, IfSome, MatchOption, OnOk};
ghost use Rattle.std.specs.Char.{digit_char};
ghost use Rattle.std.specs.Char.Escape.{escape_unicode};
ghost use Rattle.std.specs.Io.KnownBytes.{Appends, Keeps, WriteAppends};
ghost use Rattle.std.specs.Io.{WritesAtMost};
ghost use Rattle.upon_tool_messages.specs.Terminal.{is_spelled, shown_text, PassesOn, SendsPart};

use crate::color::{RESET, Tint, code, parts_of};
use std::alloc::Global;
use std::io::{self, Write};

/// A writer that hands texts on with control characters spelled, as `\u{1b}`, but for line feeds and tabulators. If it
/// has colors, it paints the lines in which errors are told; each part that is painted ends with a reset.
#[derive(Drop)]
pub struct Terminal<'e, E> {
    err: &'e mut E,
    // Whether lines are painted.
    has_colors: bool,
    // The line that has not ended, as far as it is held.
    line: String,
    // Whether the rest of this line is handed on as it is: it is not painted, or there was no memory to hold it.
    is_plain: bool,
}

impl<'e, E: Write> Terminal<'e, E> {
    ghost use Rattle.std.specs.Prelude.{◌≡◌, [], ◌∷◌, ◌++◌, true, false, OnOk};
    ghost use Rattle.std.specs.Char.Escape.{escape_unicode};
    ghost use Rattle.upon_tool_messages.specs.Terminal.{held_line, hands_plain, paints_lines, shown_text, terminal_writer, PassesOn, SendsPart};

    /// Creates one that hands on to a writer.
    pub fn new(alloc: Global, err: &'e mut E, has_colors: bool) -> Terminal<'e, E>
        // It has handed nothing on, and holds nothing.
        ensures writer { terminal_writer result ≡ err.entry }
        ensures held { held_line result ≡ [] }
        ensures paints { paints_lines result ≡ has_colors }
    {
        Terminal {
            err,
            has_colors,
            line: String::new(alloc),
            is_plain: !has_colors,
        }
    }

    // Hands on a text, or holds it.
    fn put(&mut self, text: &str) -> io::Result<()>
        ensures paints { paints_lines self.new ≡ paints_lines self.old }
        ensures shown { OnOk result (PassesOn (paints_lines self.old) (held_line self.old) (held_line self.new)
            (E.contents (terminal_writer self.old).now) (E.contents (terminal_writer self.new).now)
            (shown_text text.now)) }
        ensures plain { paints_lines self.old ≡ false → OnOk result (held_line self.new ≡ []) }
    {
        let mut rest = text;
        while let Some((before, letter, after)) = first_spelled(rest) {
            self.put_part(before)?;
            self.put_spelled(letter)?;
            rest = after;
        }
        self.put_part(rest)
    }

    // Does so with a part of a text, which has no control characters.
    fn put_part(&mut self, part: &str) -> io::Result<()>
        ensures paints { paints_lines self.new ≡ paints_lines self.old }
        ensures shown { OnOk result (PassesOn (paints_lines self.old) (held_line self.old) (held_line self.new)
            (E.contents (terminal_writer self.old).now) (E.contents (terminal_writer self.new).now) part.now) }
        ensures plain { paints_lines self.old ≡ false → OnOk result (held_line self.new ≡ []) }
    {
        if !self.has_colors {
            return self.hold(part);
        }
        let mut rest = part;
        while let Some((end, after)) = rest.split_once('\n') {
            self.end_line(end)?;
            rest = after;
        }
        if rest.is_empty() {
            Ok(())
        } else {
            self.hold(rest)
        }
    }

    // Does so with what spells a control character, of which the code has one or two digits.
    fn put_spelled(&mut self, letter: char) -> io::Result<()>
        requires { letter < 256 }
        ensures paints { paints_lines self.new ≡ paints_lines self.old }
        ensures shown { OnOk result (PassesOn (paints_lines self.old) (held_line self.old) (held_line self.new)
            (E.contents (terminal_writer self.old).now) (E.contents (terminal_writer self.new).now)
            (escape_unicode letter)) }
        ensures plain { paints_lines self.old ≡ false → OnOk result (held_line self.new ≡ []) }
    {
        let code = u32::from(letter) as usize;
        self.hold("\\u{")?;
        if code >= DIGITS.len() {
            self.hold(digit(code / DIGITS.len()))?;
        }
        self.hold(digit(code % DIGITS.len()))?;
        self.hold("}")
    }

    // Holds a piece of a line; without memory for it, or without colors, hands it on.
    fn hold(&mut self, piece: &str) -> io::Result<()>
        ensures paints { paints_lines self.new ≡ paints_lines self.old }
        ensures shown { OnOk result (PassesOn (paints_lines self.old) (held_line self.old) (held_line self.new)
            (E.contents (terminal_writer self.old).now) (E.contents (terminal_writer self.new).now) piece.now) }
        ensures unheld { OnOk result (hands_plain self.new ≡ true → held_line self.new ≡ []) }
        ensures plain { paints_lines self.old ≡ false → OnOk result (held_line self.new ≡ []) }
    {
        if self.has_colors && !self.is_plain && self.line.push_str(piece).is_ok() {
            return Ok(());
        }
        self.let_go()?;
        self.err.write_all(piece.as_bytes())
    }

    // Hands on what is held of a line as it is, as the rest of it will be.
    fn let_go(&mut self) -> io::Result<()>
        ensures paints { paints_lines self.new ≡ paints_lines self.old }
        ensures held { OnOk result (held_line self.new ≡ []) }
        ensures sent { OnOk result (Appends (E.contents (terminal_writer self.old).now)
            (E.contents (terminal_writer self.new).now) (held_line self.old)) }
    {
        self.is_plain = true;
        self.err.write_all(self.line.as_bytes())?;
        self.line.clear();
        Ok(())
    }

    // Hands on what is held of a line, painted.
    fn paint_line(&mut self) -> io::Result<()>
        ensures paints { paints_lines self.new ≡ paints_lines self.old }
        ensures held { OnOk result (held_line self.new ≡ []) }
        ensures sent { OnOk result (SendsPart (held_line self.old) (E.contents (terminal_writer self.old).now)
            (E.contents (terminal_writer self.new).now)) }
    {
        let parts = parts_of(self.line.as_str());
        write_painted(self.err, parts.first_tint, parts.first)?;
        write_painted(self.err, parts.rest_tint, parts.rest)?;
        self.line.clear();
        Ok(())
    }

    // Hands on the line that ends with this piece, painted if it is held.
    fn end_line(&mut self, piece: &str) -> io::Result<()>
        requires { paints_lines self.old ≡ true }
        ensures paints { paints_lines self.new ≡ true }
        ensures shown { OnOk result (PassesOn true (held_line self.old) (held_line self.new)
            (E.contents (terminal_writer self.old).now) (E.contents (terminal_writer self.new).now)
            (piece.now ++ 10 ∷ [])) }
    {
        self.hold(piece)?;
        if !self.is_plain {
            self.paint_line()?;
        }
        self.is_plain = !self.has_colors;
        self.err.write_all(b"\n")
    }
}

// What a text is before its first character that is spelled, that character, and what is after it.
fn first_spelled(text: &str) -> Option<(&str, char, &str)>
    ensures parts { MatchOption result (shown_text text.now ≡ text.now)
        (λ parts. shown_text text.now ≡ parts.0.now ++ (escape_unicode parts.1 ++ shown_text parts.2.now)) }
    ensures code { IfSome result (λ parts. parts.1 < 256) }
    ensures shorter { IfSome result (λ parts. length parts.2.now < length text.now) }
{
    let mut len = 0usize;
    for letter in text.chars() {
        let next = len + letter.len_utf8();
        if is_spelled(letter) {
            return Some((&text[..len], letter, &text[next..]));
        }
        len = next;
    }
    None
}

// The digits of base 16.
const DIGITS: [&str; 16] = [
    "0", "1", "2", "3", "4", "5", "6", "7", "8", "9", "a", "b", "c", "d", "e", "f",
];

// The digit of a number below 16.
fn digit(number: usize) -> &'static str
    ensures { number < 16 → result.now ≡ digit_char number ∷ [] }
{
    DIGITS.get(number).copied().unwrap_or_default()
}

// Writes a part of a line in its tint.
fn write_painted<E: Write>(err: &mut E, tint: Tint, part: &str) -> io::Result<()>
    ensures { OnOk result (SendsPart part.now (E.contents err.old) (E.contents err.new)) }
{
    match code(tint) {
        Some(code) if !part.is_empty() => {
            err.write_all(code.as_bytes())?;
            err.write_all(part.as_bytes())?;
            err.write_all(RESET.as_bytes())
        }
        _ => err.write_all(part.as_bytes()),
    }
}

impl<E: Write> Write for Terminal<'_, E> {
    ghost use Rattle.std.specs.Prelude.{◌≡◌, [], false, OnOk, None};
    ghost use Rattle.std.specs.Io.{WritesAtMost};
    ghost use Rattle.std.specs.Io.KnownBytes.{Keeps, WriteAppends};
    ghost use Rattle.upon_tool_messages.specs.Terminal.{held_line, paints_lines, shown_text, terminal_writer, PassesOn};

    fn write(&mut self, bytes: &[u8]) -> io::Result<usize>
        ensures bound { WritesAtMost result bytes.now }
        ensures bytes { WriteAppends None None result bytes.now }
        ensures paints { paints_lines self.new ≡ paints_lines self.old }
        // What it held and the text, as it is shown, are what it sends on, in colors or without, and what it holds
        // then.
        ensures shown { OnOk result (PassesOn (paints_lines self.old) (held_line self.old) (held_line self.new)
            (E.contents (terminal_writer self.old).now) (E.contents (terminal_writer self.new).now)
            (shown_text bytes.now)) }
        // Without colors it holds nothing.
        ensures plain { paints_lines self.old ≡ false → OnOk result (held_line self.new ≡ []) }
    {
        match std::str::from_utf8(bytes) {
            Ok(text) => {
                self.put(text)?;
                Ok(bytes.len())
            }
            Err(_) => Err(io::Error::from(io::ErrorKind::InvalidData)),
        }
    }

    fn flush(&mut self) -> io::Result<()>
        ensures bytes { Keeps None None }
        ensures paints { paints_lines self.new ≡ paints_lines self.old }
        // It sends on what it held.
        ensures held { OnOk result (held_line self.new ≡ []) }
        ensures sent { OnOk result (PassesOn (paints_lines self.old) (held_line self.old) (held_line self.new)
            (E.contents (terminal_writer self.old).now) (E.contents (terminal_writer self.new).now) []) }
    {
        self.err.write_all(self.line.as_bytes())?;
        self.line.clear();
        self.err.flush()
    }
}

/// Returns whether a character is spelled: a control character, but for a line feed and a tabulator.
pub(crate) fn is_spelled(letter: char) -> bool
    ensures { result ≡ is_spelled letter }
{
    letter.is_control() && letter != '\n' && letter != '\t'
}
