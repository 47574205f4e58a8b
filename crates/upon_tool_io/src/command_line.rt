// The program's commands and their arguments: a table of them, and how `clap` is told of it. `checks/write-arguments`
// reads the table too, and writes completions, the manual page and the table of options in docs/TOOL.md.
use clap::{Arg, ArgAction, ArgGroup, Command, value_parser};
use std::alloc::{AllocError, Global};

// The version: that of the language, and after the `+` that of this engine.
const VERSION: &str = "0.11.0+1";

const PROGRAM: &str = "upon-tool";

const ABOUT: &str =
    "Renders templates, builds folders of them, checks them, and lists what they need";

pub(crate) const FILE: &str = "FILE";

pub(crate) const ENV: &str = "env";

pub(crate) const DATA: &str = "data";

pub(crate) const FORMAT: &str = "format";

pub(crate) const SET_JSON: &str = "set-json";

pub(crate) const SET: &str = "set";

pub(crate) const SCHEMA: &str = "schema";

pub(crate) const SHAPE_OUT: &str = "shape-out";

// The arguments of contexts: samples, or a schema.
const CONTEXTS: &str = "contexts";

const OF_CONTEXTS: [&str; 5] = [SCHEMA, DATA, ENV, SET_JSON, SET];

pub(crate) const TEMPLATES: &str = "templates";

pub(crate) const FOLLOW: &str = "follow";

pub(crate) const HTML: &str = "html";

pub(crate) const ESCAPE: &str = "escape";

pub(crate) const STD: &str = "std";

pub(crate) const FUNCTION: &str = "function";

pub(crate) const OUT: &str = "out";

pub(crate) const MAX_STEPS: &str = "max-steps";

pub(crate) const MAX_OUTPUT: &str = "max-output";

pub(crate) const MAX_MEMORY: &str = "max-memory";

pub(crate) const COLOR: &str = "color";

pub(crate) const JSON: &str = "json";

pub(crate) const EACH: &str = "each";

pub(crate) const NAME: &str = "name";

pub(crate) const KEEP_GOING: &str = "keep-going";

pub(crate) const LAYOUT: &str = "layout";

pub(crate) const SOURCE: &str = "SRC";

pub(crate) const RENDER: &str = "render";

pub(crate) const BUILD: &str = "build";

pub(crate) const CHECK: &str = "check";

pub(crate) const NAMES: &str = "names";

// What a value names, with what the help calls it. Shells complete files and folders.
#[derive(Clone, Copy)]
enum Value {
    File(&'static str),
    Folder(&'static str),
    Text(&'static str),
}

// What an argument takes.
#[derive(Clone, Copy)]
enum Takes {
    // Nothing: it is there or not.
    Nothing,
    // One value.
    One(Value),
    // One value each time that it is there.
    Each(Value),
    // One of some words.
    Word(&'static str, &'static [&'static str]),
    // A whole number.
    Number(&'static str),
    // It has no name, and is one value itself.
    Itself(Value),
    // It has no name, and is one value or more.
    Words(Value),
}

// An argument.
#[derive(Clone, Copy)]
struct Row {
    // Its name, which the words have after `--`.
    name: &'static str,
    takes: Takes,
    help: &'static str,
    is_required: bool,
    // It is required where none of these is there.
    unless: &'static [&'static str],
    // Those that have to be there with it.
    needs: &'static [&'static str],
    // Those that may not be there with it.
    excludes: &'static [&'static str],
}

// A row that says nothing.
const BLANK: Row = Row {
    name: "",
    takes: Takes::Nothing,
    help: "",
    is_required: false,
    unless: &[],
    needs: &[],
    excludes: &[],
};

// The template of a rendering.
const FILE_ROW: Row = Row {
    name: FILE,
    takes: Takes::Itself(Value::File(FILE)),
    help: "The template, or - for standard input",
    is_required: true,
    ..BLANK
};

// The templates that are checked.
const FILES_ROW: Row = Row {
    name: FILE,
    takes: Takes::Words(Value::File(FILE)),
    help: "The templates, or - for standard input",
    unless: &[TEMPLATES, SHAPE_OUT],
    ..BLANK
};

const SOURCE_ROW: Row = Row {
    name: SOURCE,
    takes: Takes::Itself(Value::Folder(SOURCE)),
    help: "The folder of the templates and of the other files",
    is_required: true,
    ..BLANK
};

const ENV_ROW: Row = Row {
    name: ENV,
    help: "Set the variables of the environment at the key env, below DATA",
    ..BLANK
};

const DATA_ROW: Row = Row {
    name: DATA,
    takes: Takes::Each(Value::File("DATA")),
    help: "A file of JSON, JSON lines, CSV or TOML for the context, FILE or KEY=FILE; - for standard input",
    ..BLANK
};

const SAMPLES_ROW: Row = Row {
    name: DATA,
    takes: Takes::Each(Value::File("DATA")),
    help: "Check that each FILE ends well on data as FILE of DATA has; KEY=FILE is put into each sample",
    ..BLANK
};

const FORMAT_ROW: Row = Row {
    name: FORMAT,
    takes: Takes::Word("FORMAT", &["json", "jsonl", "csv", "toml"]),
    help: "The format of all DATA, in place of the one that a file's name says",
    ..BLANK
};

const SET_JSON_ROW: Row = Row {
    name: SET_JSON,
    takes: Takes::Each(Value::Text("KEY=JSON")),
    help: "Set a value of JSON at a key of the context, over DATA; a.b is the member b of a",
    ..BLANK
};

const SET_ROW: Row = Row {
    name: SET,
    takes: Takes::Each(Value::Text("KEY=TEXT")),
    help: "Set a text at a key of the context, over DATA and values of JSON",
    ..BLANK
};

const SCHEMA_ROW: Row = Row {
    name: SCHEMA,
    takes: Takes::One(Value::File("SCHEMA")),
    help: "Check that each FILE ends well on data that are valid by a JSON Schema; - for standard input",
    excludes: &[DATA, FORMAT, ENV, SET_JSON, SET],
    ..BLANK
};

const SHAPE_OUT_ROW: Row = Row {
    name: SHAPE_OUT,
    help: "Write the JSON Schema of the data, in place of a check",
    needs: &[CONTEXTS],
    excludes: &[FILE, TEMPLATES],
    ..BLANK
};

const TEMPLATES_ROW: Row = Row {
    name: TEMPLATES,
    takes: Takes::One(Value::Folder("DIR")),
    help: "A folder, of which each file can be included by its path in it",
    ..BLANK
};

const FOLLOW_ROW: Row = Row {
    name: FOLLOW,
    help: "Follow links that lead out of DIR",
    ..BLANK
};

// The row of the option to follow links, for a build.
const FOLLOW_SOURCE_ROW: Row = Row {
    help: "Follow links that lead out of SRC and DIR",
    ..FOLLOW_ROW
};

const LAYOUT_ROW: Row = Row {
    name: LAYOUT,
    takes: Takes::One(Value::File("FILE")),
    help: "A template that each page's text is put into, as content; - for standard input",
    ..BLANK
};

const HTML_ROW: Row = Row {
    name: HTML,
    help: "Escape values for HTML, as --escape=html does",
    ..BLANK
};

const ESCAPE_ROW: Row = Row {
    name: ESCAPE,
    takes: Takes::Word("LANGUAGE", &["html", "json", "shell", "yaml"]),
    help: "Escape values for a language; the formatter verbatim leaves one as it is",
    ..BLANK
};

const STD_ROW: Row = Row {
    name: STD,
    help: "Let templates call the standard functions",
    ..BLANK
};

const FUNCTION_ROW: Row = Row {
    name: FUNCTION,
    takes: Takes::Each(Value::Text("NAME")),
    help: "Let templates call a function or formatter of this name, with any arguments",
    ..BLANK
};

const OUT_ROW: Row = Row {
    name: OUT,
    takes: Takes::One(Value::File("OUT")),
    help: "Write to this file, which is replaced if all went well; with --each to this folder",
    ..BLANK
};

// The row of the option that says where the output goes, for a build.
const PAGES_ROW: Row = Row {
    name: OUT,
    takes: Takes::One(Value::Folder("DIR")),
    help: "The folder of the pages, which is made",
    is_required: true,
    ..BLANK
};

const MAX_STEPS_ROW: Row = Row {
    name: MAX_STEPS,
    takes: Takes::Number("N"),
    help: "Stop a rendering that takes more than N steps",
    ..BLANK
};

const MAX_OUTPUT_ROW: Row = Row {
    name: MAX_OUTPUT,
    takes: Takes::Number("BYTES"),
    help: "Stop a rendering that writes more than this many bytes",
    ..BLANK
};

const MAX_MEMORY_ROW: Row = Row {
    name: MAX_MEMORY,
    takes: Takes::Number("BYTES"),
    help: "Stop a rendering that makes more than this many bytes of values",
    ..BLANK
};

const EACH_ROW: Row = Row {
    name: EACH,
    takes: Takes::One(Value::Text("KEY")),
    help: "Render once for each item of the list at a key, which is item, and its entries are over the context's",
    needs: &[NAME, OUT],
    ..BLANK
};

const NAME_ROW: Row = Row {
    name: NAME,
    takes: Takes::One(Value::Text("TEMPLATE")),
    help: "The name of an item's file in OUT, as {{ id }}.txt",
    needs: &[EACH],
    ..BLANK
};

const KEEP_GOING_ROW: Row = Row {
    name: KEEP_GOING,
    help: "Go on after a page that fails",
    ..BLANK
};

// The row of the option to go on after a page that fails, for a rendering, which has pages with `--each` alone.
const KEEP_EACH_GOING_ROW: Row = Row {
    needs: &[EACH],
    ..KEEP_GOING_ROW
};

const JSON_ROW: Row = Row {
    name: JSON,
    help: "Write one JSON object in place of lines",
    ..BLANK
};

const COLOR_ROW: Row = Row {
    name: COLOR,
    takes: Takes::Word("WHEN", &["auto", "always", "never"]),
    help: "Color pictures of errors; auto is on a terminal where NO_COLOR is not set",
    ..BLANK
};

// A command.
#[derive(Clone, Copy)]
struct Asked {
    name: &'static str,
    about: &'static str,
    // Its arguments, in the order of the help.
    rows: &'static [Row],
}

// The commands, in the order of the help.
const COMMANDS: [Asked; 4] = [
    Asked {
        name: RENDER,
        about: "Renders a template on data",
        rows: &[
            FILE_ROW,
            ENV_ROW,
            DATA_ROW,
            FORMAT_ROW,
            SET_JSON_ROW,
            SET_ROW,
            TEMPLATES_ROW,
            FOLLOW_ROW,
            HTML_ROW,
            ESCAPE_ROW,
            STD_ROW,
            OUT_ROW,
            MAX_STEPS_ROW,
            MAX_OUTPUT_ROW,
            MAX_MEMORY_ROW,
            EACH_ROW,
            NAME_ROW,
            KEEP_EACH_GOING_ROW,
            COLOR_ROW,
        ],
    },
    Asked {
        name: BUILD,
        about: "Builds a folder: renders its files NAME.upon to NAME, and copies the others",
        rows: &[
            SOURCE_ROW,
            ENV_ROW,
            DATA_ROW,
            FORMAT_ROW,
            SET_JSON_ROW,
            SET_ROW,
            LAYOUT_ROW,
            TEMPLATES_ROW,
            FOLLOW_SOURCE_ROW,
            HTML_ROW,
            ESCAPE_ROW,
            STD_ROW,
            PAGES_ROW,
            MAX_STEPS_ROW,
            MAX_OUTPUT_ROW,
            MAX_MEMORY_ROW,
            KEEP_GOING_ROW,
            COLOR_ROW,
        ],
    },
    Asked {
        name: CHECK,
        about: "Shows each error of templates, each include that names none, and each call that fails",
        rows: &[
            FILES_ROW,
            TEMPLATES_ROW,
            FOLLOW_ROW,
            HTML_ROW,
            ESCAPE_ROW,
            STD_ROW,
            FUNCTION_ROW,
            ENV_ROW,
            SAMPLES_ROW,
            FORMAT_ROW,
            SET_JSON_ROW,
            SET_ROW,
            SCHEMA_ROW,
            SHAPE_OUT_ROW,
            COLOR_ROW,
        ],
    },
    Asked {
        name: NAMES,
        about: "Lists the names that a template needs of its context, and the templates that it includes",
        rows: &[FILE_ROW, TEMPLATES_ROW, FOLLOW_ROW, JSON_ROW, COLOR_ROW],
    },
];

// The program's command, with those below it.
pub(crate) fn command<'a>(alloc: Global) -> Result<Command<'a>, AllocError> {
    let command = Command::new(alloc, PROGRAM)
        .version(VERSION)
        .about(ABOUT)
        .subcommand_required(true)
        .disable_help_subcommand(true);
    with_commands(alloc, command.bin_name(PROGRAM)?)
}

// The program's command with those below it, if they could be made.
fn with_commands<'a>(alloc: Global, mut command: Command<'a>) -> Result<Command<'a>, AllocError> {
    for asked in COMMANDS.as_slice() {
        command = with_command(command, command_of(alloc, asked))?;
    }
    Ok(command)
}

// A command with another one below it, if that could be made.
fn with_command<'a>(
    command: Command<'a>,
    below: Result<Command<'a>, AllocError>,
) -> Result<Command<'a>, AllocError> {
    match below {
        Ok(below) => command.subcommand(below),
        Err(error) => {
            drop(command);
            Err(error)
        }
    }
}

// What `clap` is told of a command. Each has the group of contexts, which the rows of a check alone name.
fn command_of<'a>(alloc: Global, asked: &Asked) -> Result<Command<'a>, AllocError> {
    let group = contexts(alloc)?;
    let command = Command::new(alloc, asked.name).about(asked.about);
    with_rows(alloc, command.group(group)?, asked.rows)
}

// A command with arguments, if they could be made.
fn with_rows<'a>(
    alloc: Global,
    mut command: Command<'a>,
    rows: &[Row],
) -> Result<Command<'a>, AllocError> {
    for row in rows {
        command = with_arg(command, arg_of(alloc, row))?;
    }
    Ok(command)
}

// The arguments of contexts.
fn contexts<'a>(alloc: Global) -> Result<ArgGroup<'a>, AllocError> {
    let names = OF_CONTEXTS;
    ArgGroup::new(alloc, CONTEXTS).multiple(true).args(&names)
}

// A command with one argument more, if that could be made.
fn with_arg<'a>(
    command: Command<'a>,
    arg: Result<Arg<'a>, AllocError>,
) -> Result<Command<'a>, AllocError> {
    match arg {
        Ok(arg) => command.arg(arg),
        Err(error) => {
            drop(command);
            Err(error)
        }
    }
}

// What `clap` is told of an argument.
fn arg_of<'a>(alloc: Global, row: &Row) -> Result<Arg<'a>, AllocError> {
    taking(alloc, row)
        .help(row.help)
        .required(row.is_required)
        .required_unless_present_any(row.unless)?
        .requires_all(row.needs)?
        .conflicts_with_all(row.excludes)
}

// An argument of a name, with what it takes.
fn taking<'a>(alloc: Global, row: &Row) -> Arg<'a> {
    let arg = Arg::new(alloc, row.name);
    match row.takes {
        Takes::Nothing => arg.long(row.name).action(ArgAction::SetTrue),
        Takes::One(value) => option(arg, row.name, called(value)),
        Takes::Each(value) => option(arg, row.name, called(value)).action(ArgAction::Append),
        Takes::Word(value, words) => option(arg, row.name, value).value_parser(words),
        Takes::Number(value) => option(arg, row.name, value).value_parser(value_parser!(usize)),
        Takes::Itself(value) => arg.value_name(called(value)),
        Takes::Words(value) => arg
            .value_name(called(value))
            .num_args(1..)
            .action(ArgAction::Append),
    }
}

// What the help calls a value.
fn called(value: Value) -> &'static str {
    match value {
        Value::File(name) | Value::Folder(name) | Value::Text(name) => name,
    }
}

// An argument with one value, after its name.
fn option<'a>(arg: Arg<'a>, name: &'a str, value: &'a str) -> Arg<'a> {
    arg.long(name).value_name(value).action(ArgAction::Set)
}
