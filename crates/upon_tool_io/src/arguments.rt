// What the words of a call ask for.
ghost use Rattle.std.specs.Prelude.{◌≡◌, false, IfOk, IfSome, is_some, map, string_bytes, Some, true};
ghost use Rattle.upon_tool_io.specs.Asks.{call_color, check_on, color_of_word, escape_of_words, has_contexts, is_command, lacks_file, AsksFor, AsksForCheck, AsksForContexts, AsksForData, AsksForNames, AsksForRendering, HasColor, HasEscape, HasText};
ghost use Rattle.upon_tool_io.specs.Rows.{AsksByRows, AsksByWords};
ghost use Rattle.upon_tool_io.specs.Said.{lent_text};
ghost use Rattle.clap.specs.Simple.{app_of, subcommand_rows_of, App};

use crate::command_line::{
    BUILD, CHECK, COLOR, DATA, EACH, ENV, ESCAPE, FILE, FOLLOW, FORMAT, FUNCTION, HTML, JSON,
    KEEP_GOING, LAYOUT, MAX_MEMORY, MAX_OUTPUT, MAX_STEPS, NAME, NAMES, OUT, RENDER, SCHEMA, SET,
    SET_JSON, SHAPE_OUT, SOURCE, STD, TEMPLATES, command,
};
use crate::words::Words;
use clap::error::ErrorKind;
use clap::{ArgMatches, Command};
use std::alloc::{AllocError, Global};

/// What a call of the program asks for.
#[derive(Drop)]
pub enum Call<'a> {
    /// To render a template.
    Render(RenderCall<'a>),
    /// To check templates.
    Check(CheckCall<'a>),
    /// To check templates, and whether they end without a fault on contexts.
    Fit(FitCall<'a>),
    /// To write the shape of contexts as a JSON Schema.
    Shape(ShapeCall<'a>),
    /// To list what a template needs.
    Names(NamesCall<'a>),
    /// To render a template once for each item of a list.
    Each(EachCall<'a>),
    /// To build a folder into another.
    Build(BuildCall<'a>),
}

/// A rendering that is asked for.
#[derive(Drop)]
pub struct RenderCall<'a> {
    /// The template's file; `-` is standard input.
    pub file: &'a str,
    /// The data of the context.
    pub data: DataCall<'a>,
    /// The folder of the templates that can be included.
    pub templates: Option<&'a str>,
    /// Whether links out of the folder are followed.
    pub follow: bool,
    /// The language that values are escaped for, if they are.
    pub escape: Option<Escape>,
    /// Whether templates may call the standard functions.
    pub standard: bool,
    /// Where the text goes; none and `-` are standard output.
    pub out: Option<&'a str>,
    /// The most steps that the rendering takes; none is no limit.
    pub max_steps: Option<usize>,
    /// The most bytes that it writes; none is no limit.
    pub max_output: Option<usize>,
    /// The most bytes of values that it makes; none is no limit.
    pub max_memory: Option<usize>,
    /// When pictures of errors have colors.
    pub color: Color,
}

/// The data of a context, or of samples, that are asked for.
#[derive(Drop)]
pub struct DataCall<'a> {
    /// Whether the variables of the environment are data, a map at the key `env`.
    pub env: bool,
    /// The words of `--data`, each `FILE` or `KEY=FILE`; the file `-` is standard input. In a check each `FILE` is a
    /// sample, and each `KEY=FILE` is put into all of them.
    pub files: Vec<&'a str>,
    /// The name of the format that each file has, if it is given.
    pub format: Option<&'a str>,
    /// The words of `--set-json`, each `PATH=JSON`.
    pub set_json: Vec<&'a str>,
    /// The words of `--set`, each `PATH=TEXT`.
    pub set: Vec<&'a str>,
}

/// A language that values are escaped for.
#[derive(Clone, Copy, Debug, PartialEq, Eq)]
pub enum Escape {
    /// HTML.
    Html,
    /// The content of a JSON string.
    Json,
    /// A word of a shell.
    Shell,
    /// The content of a double-quoted scalar of YAML.
    Yaml,
}

/// A check that is asked for.
#[derive(Drop)]
pub struct CheckCall<'a> {
    /// The files of the templates; `-` is standard input.
    pub files: Vec<&'a str>,
    /// The folder of the templates that can be included, which are checked too.
    pub templates: Option<&'a str>,
    /// Whether links out of the folder are followed.
    pub follow: bool,
    /// The language that values are escaped for, if they are: then there is the formatter `verbatim`.
    pub escape: Option<Escape>,
    /// Whether templates may call the standard functions.
    pub standard: bool,
    /// The names of other functions and formatters that templates may call.
    pub functions: Vec<&'a str>,
    /// When pictures of errors have colors.
    pub color: Color,
}

/// The contexts of a check: samples, or those that are valid by a schema.
#[derive(Drop)]
pub struct ContextsCall<'a> {
    /// The file of a JSON Schema, if there is one; `-` is standard input.
    pub schema: Option<&'a str>,
    /// The data of the samples.
    pub data: DataCall<'a>,
}

/// A check on contexts that is asked for.
#[derive(Drop)]
pub struct FitCall<'a> {
    /// What is checked.
    pub check: CheckCall<'a>,
    /// On which contexts.
    pub contexts: ContextsCall<'a>,
}

/// A JSON Schema that is asked for, of the shape of contexts.
#[derive(Drop)]
pub struct ShapeCall<'a> {
    /// The contexts.
    pub contexts: ContextsCall<'a>,
    /// When pictures of errors have colors.
    pub color: Color,
}

/// A list that is asked for, of what a template needs.
#[derive(Drop)]
pub struct NamesCall<'a> {
    /// The template's file; `-` is standard input.
    pub file: &'a str,
    /// The folder of the templates that can be included.
    pub templates: Option<&'a str>,
    /// Whether links out of the folder are followed.
    pub follow: bool,
    /// Whether the list is JSON.
    pub json: bool,
    /// When pictures of errors have colors.
    pub color: Color,
}

/// When pictures of errors have colors.
#[derive(Clone, Copy, Debug, PartialEq, Eq, Drop)]
pub enum Color {
    /// When they go to a terminal, and the variable `NO_COLOR` of the environment is empty or not there.
    Auto,
    /// Always.
    Always,
    /// Never.
    Never,
}

impl<'a> Call<'a> {
    /// Returns when pictures of errors have colors.
    pub fn color(&self) -> Color
        ensures { result ≡ call_color self.now }
    {
        match self {
            Call::Render(call) => call.color,
            Call::Check(call) => call.color,
            Call::Fit(call) => call.check.color,
            Call::Shape(call) => call.color,
            Call::Names(call) => call.color,
            Call::Each(call) => call.render.color,
            Call::Build(call) => call.render.color,
        }
    }
}

/// A rendering that is asked for once for each item of a list.
#[derive(Drop)]
pub struct EachCall<'a> {
    /// What is rendered, on which context.
    pub render: RenderCall<'a>,
    /// The key of the list in the context.
    pub key: &'a str,
    /// The template of the pages' names.
    pub name: &'a str,
    /// The folder of the pages.
    pub out: &'a str,
    /// Whether the pages after one that fails are rendered.
    pub keep_going: bool,
}

/// A folder that is to be built into another.
#[derive(Drop)]
pub struct BuildCall<'a> {
    /// The folder of the sources, in the place of the file of a template; and the context.
    pub render: RenderCall<'a>,
    /// The file of the template that a page's text is put into; `-` is standard input.
    pub layout: Option<&'a str>,
    /// The folder of the pages.
    pub out: &'a str,
    /// Whether the pages after one that fails are built.
    pub keep_going: bool,
}

/// Returns what the words ask for, of which the first is the program's name. The error is clap's: its text is for the
/// user, also the help that was asked for.
pub fn read<'a>(alloc: Global, words: &'a [String]) -> Result<Call<'a>, clap::Error>
    // It is what clap has found in the words. Of the table by which it reads them no clause says more.
    ensures asks { IfOk result (λ call. (app : App) × AsksByWords app (map string_bytes words.now) call) }
    // A check on contexts has a file.
    ensures has_file { IfOk result (λ call. lacks_file call ≡ false) }
{
    let mut command = command(alloc)?;
    let call = read_by(alloc, &mut command, words);
    // Dropped by a call, here and below, not part by part at each end: a proof of that is several times as long.
    drop(command);
    call
}

// What the words ask for, by the program's command.
fn read_by<'a>(
    alloc: Global,
    command: &mut Command<'a>,
    words: &'a [String],
) -> Result<Call<'a>, clap::Error>
    ensures asks { IfOk result (AsksByWords (app_of command.old) (map string_bytes words.now)) }
    ensures has_file { IfOk result (λ call. lacks_file call ≡ false) }
{
    let matches = command.try_get_matches_from_mut(words)?;
    let asked = asked_for(alloc, &matches);
    drop(matches);
    match asked? {
        Some(call) if lacks_file(&call) => {
            drop(call);
            let kind = ErrorKind::MissingRequiredArgument;
            Err(command.error(
                kind,
                "a check on contexts wants the FILE that is rendered on them",
            )?)
        }
        Some(call) => Ok(call),
        None => Err(command.error(ErrorKind::MissingSubcommand, "a command is missing")?),
    }
}

// Whether a call asks for a check on contexts, and for no file.
fn lacks_file(call: &Call<'_>) -> bool
    ensures { result ≡ lacks_file call.now }
{
    match call {
        Call::Fit(call) => call.check.files.is_empty(),
        _ => false,
    }
}

// What the matches ask for, if they have a command.
fn asked_for<'a>(alloc: Global, matches: &ArgMatches<'a>) -> Result<Option<Call<'a>>, AllocError>
    ensures { IfOk result (AsksByRows (subcommand_rows_of matches.now)) }
{
    match matches.subcommand() {
        Some((command, found)) => asked_by(alloc, command, found).transpose(),
        None => Ok(None),
    }
}

// What the words of a command ask for, if it is one of the program's.
pub(crate) fn asked_by<'a, W: Words<'a>>(
    alloc: Global,
    command: &str,
    words: &W,
) -> Option<Result<Call<'a>, AllocError>>
    ensures known { is_some result ≡ is_command command.now }
    ensures asks { IfSome result (λ asked. IfOk asked (AsksFor (W.said words.now) command.now)) }
{
    match command {
        RENDER => Some(any_rendering(alloc, words)),
        BUILD => Some(build_call(alloc, words)),
        CHECK => Some(any_check(alloc, words)),
        NAMES => Some(Ok(Call::Names(names_call(words)))),
        _ => None,
    }
}

// What the words of a rendering ask for: to render once, or for each item.
fn any_rendering<'a, W: Words<'a>>(alloc: Global, words: &W) -> Result<Call<'a>, AllocError>
    ensures { IfOk result (AsksFor (W.said words.now) RENDER.now) }
{
    match words.text(EACH) {
        Some(key) => each_call(alloc, words, key),
        None => Ok(Call::Render(render_call(alloc, words, FILE)?)),
    }
}

// What a rendering's words ask for, of what an argument names.
fn render_call<'a, W: Words<'a>>(
    alloc: Global,
    words: &W,
    file: &str,
) -> Result<RenderCall<'a>, AllocError>
    ensures { IfOk result (AsksForRendering (W.said words.now) file.now) }
{
    let data = data_call(alloc, words)?;
    Ok(RenderCall {
        file: text_of(words, file),
        data,
        templates: words.text(TEMPLATES),
        follow: words.flag(FOLLOW),
        escape: escape_asked(words),
        standard: words.flag(STD),
        out: words.text(OUT),
        max_steps: words.number(MAX_STEPS),
        max_output: words.number(MAX_OUTPUT),
        max_memory: words.number(MAX_MEMORY),
        color: color_asked(words),
    })
}

// What the words of a rendering for each item of the list at a key ask for.
fn each_call<'a, W: Words<'a>>(
    alloc: Global,
    words: &W,
    key: &'a str,
) -> Result<Call<'a>, AllocError>
    ensures { (W.said words.now).text EACH.now (Some key.now)
        → IfOk result (AsksFor (W.said words.now) RENDER.now) }
{
    let render = render_call(alloc, words, FILE)?;
    Ok(Call::Each(EachCall {
        render,
        key,
        name: text_of(words, NAME),
        out: text_of(words, OUT),
        keep_going: words.flag(KEEP_GOING),
    }))
}

// What a build's words ask for.
fn build_call<'a, W: Words<'a>>(alloc: Global, words: &W) -> Result<Call<'a>, AllocError>
    ensures { IfOk result (AsksFor (W.said words.now) BUILD.now) }
{
    let render = render_call(alloc, words, SOURCE)?;
    Ok(Call::Build(BuildCall {
        render,
        layout: words.text(LAYOUT),
        out: text_of(words, OUT),
        keep_going: words.flag(KEEP_GOING),
    }))
}

// The text of an argument, which is empty if it is not there.
fn text_of<'a, W: Words<'a>>(words: &W, name: &str) -> &'a str
    ensures { HasText (W.said words.now) name.now result.now }
{
    words.text(name).unwrap_or_default()
}

// The language that values are escaped for.
fn escape_asked<'a, W: Words<'a>>(words: &W) -> Option<Escape>
    ensures { HasEscape (W.said words.now) result }
{
    escape_of(words.text(ESCAPE), words.flag(HTML))
}

// The language of a name, or HTML if that is asked for by its own flag.
fn escape_of(name: Option<&str>, html: bool) -> Option<Escape>
    ensures { result ≡ escape_of_words (lent_text name.entry) html }
{
    match name {
        Some("html") => Some(Escape::Html),
        Some("json") => Some(Escape::Json),
        Some("shell") => Some(Escape::Shell),
        Some("yaml") => Some(Escape::Yaml),
        _ if html => Some(Escape::Html),
        _ => None,
    }
}

// When there are colors.
fn color_asked<'a, W: Words<'a>>(words: &W) -> Color
    ensures { HasColor (W.said words.now) result }
{
    color_of(words.text(COLOR))
}

// When there are colors, by a word.
fn color_of(word: Option<&str>) -> Color
    ensures { result ≡ color_of_word (lent_text word.entry) }
{
    match word {
        Some("always") => Color::Always,
        Some("never") => Color::Never,
        _ => Color::Auto,
    }
}

// What the words of a check ask for: to write a shape, or to check.
fn any_check<'a, W: Words<'a>>(alloc: Global, words: &W) -> Result<Call<'a>, AllocError>
    ensures { IfOk result (AsksFor (W.said words.now) CHECK.now) }
{
    if words.flag(SHAPE_OUT) {
        shape_call(alloc, words)
    } else {
        fit_or_check(alloc, words)
    }
}

// What the words ask for, to write a shape.
fn shape_call<'a, W: Words<'a>>(alloc: Global, words: &W) -> Result<Call<'a>, AllocError>
    ensures { (W.said words.now).flag SHAPE_OUT.now true
        → IfOk result (AsksFor (W.said words.now) CHECK.now) }
{
    let contexts = contexts_call(alloc, words)?;
    let color = color_asked(words);
    Ok(Call::Shape(ShapeCall { contexts, color }))
}

// What the words ask for, to check.
fn fit_or_check<'a, W: Words<'a>>(alloc: Global, words: &W) -> Result<Call<'a>, AllocError>
    ensures { (W.said words.now).flag SHAPE_OUT.now false
        → IfOk result (AsksFor (W.said words.now) CHECK.now) }
{
    let check = check_call(alloc, words)?;
    match contexts_call(alloc, words) {
        Ok(contexts) => Ok(check_on(check, contexts)),
        Err(error) => {
            drop(check);
            Err(error)
        }
    }
}

// A check on contexts, if there are some.
fn check_on<'a>(check: CheckCall<'a>, contexts: ContextsCall<'a>) -> Call<'a>
    ensures { result ≡ check_on check.entry contexts.entry }
{
    if has_contexts(&contexts) {
        Call::Fit(FitCall { check, contexts })
    } else {
        drop(contexts);
        Call::Check(check)
    }
}

// Whether there are contexts.
fn has_contexts(contexts: &ContextsCall<'_>) -> bool
    ensures { result ≡ has_contexts contexts.now }
{
    let data = &contexts.data;
    contexts.schema.is_some()
        || data.env
        || !data.files.is_empty()
        || !data.set_json.is_empty()
        || !data.set.is_empty()
}

// The contexts that the words ask for; only a check has a schema.
fn contexts_call<'a, W: Words<'a>>(alloc: Global, words: &W) -> Result<ContextsCall<'a>, AllocError>
    ensures { IfOk result (AsksForContexts (W.said words.now)) }
{
    let data = data_call(alloc, words)?;
    Ok(ContextsCall {
        schema: words.text(SCHEMA),
        data,
    })
}

// The data that the words ask for.
fn data_call<'a, W: Words<'a>>(alloc: Global, words: &W) -> Result<DataCall<'a>, AllocError>
    ensures { IfOk result (AsksForData (W.said words.now)) }
{
    let files = words.texts(alloc, DATA)?;
    let set_json = words.texts(alloc, SET_JSON)?;
    let set = words.texts(alloc, SET)?;
    Ok(DataCall {
        env: words.flag(ENV),
        files,
        format: words.text(FORMAT),
        set_json,
        set,
    })
}

// What a check's words ask for.
fn check_call<'a, W: Words<'a>>(alloc: Global, words: &W) -> Result<CheckCall<'a>, AllocError>
    ensures { IfOk result (AsksForCheck (W.said words.now)) }
{
    let files = words.texts(alloc, FILE)?;
    let functions = words.texts(alloc, FUNCTION)?;
    Ok(CheckCall {
        files,
        templates: words.text(TEMPLATES),
        follow: words.flag(FOLLOW),
        escape: escape_asked(words),
        standard: words.flag(STD),
        functions,
        color: color_asked(words),
    })
}

// What a list's words ask for.
fn names_call<'a, W: Words<'a>>(words: &W) -> NamesCall<'a>
    ensures { AsksForNames (W.said words.now) result }
{
    NamesCall {
        file: text_of(words, FILE),
        templates: words.text(TEMPLATES),
        follow: words.flag(FOLLOW),
        json: words.flag(JSON),
        color: color_asked(words),
    }
}
