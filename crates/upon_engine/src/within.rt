// Renderings within limits: so many steps of the machine, so many bytes of output, and so many bytes of values.
ghost use Rattle.std.specs.Prelude.{◌≡◌, ◌↔◌, None, Some, IsErr, IsNone, IsSomeAnd, IfErr, option_map};
ghost use Rattle.upon_types.specs.Tree.{Statements};
ghost use Rattle.upon_types.specs.View.{view};
ghost use Rattle.upon_language_spec.specs.Grammar.{HasTree};
ghost use Rattle.upon_syntax.specs.TagReading.{IsSyntaxError};
ghost use Rattle.upon_vm.specs.Limits.{GrowsWithin};
ghost use Rattle.upon_vm.specs.Reports.{IsAnyIo, IsTakenError};
ghost use Rattle.upon_vm.specs.Within.{TextWithin, WritesWithin};
ghost use Rattle.upon_engine.specs.Engine.{engine_templates};
ghost use Rattle.upon_engine.specs.Template.{template_of};
ghost use Rattle.upon_engine.specs.Texts.{Stored, texts_of};
ghost use Rattle.upon_engine.specs.Theorem.{meaning};
ghost use Rattle.upon_engine.specs.Within.{AnswersWithin, SendsWithin, runs};

use crate::engine::Engine;
use crate::sources::{EngineTemplates, program_of};
use crate::template::Template;
use std::borrow::CowStr;
use std::io;
use upon_fmt::output::{LentWriter, Output};
use upon_lookup::source::NoSource;
use upon_render::stack::Stack;
use upon_types::error::Result;
use upon_types::value::Value;
pub use upon_vm::limits::Limits;
use upon_vm::within::{render_within, reported_within};
use upon_vm_steps::machine::Running;

impl<'e> Engine<'e> {
    /// Renders the text of a template on a value within limits, or says why there is no text.
    ///
    /// If its rendering goes beyond a limit, the answer is the fault `reached the limit of 10 steps` (or `bytes`, or
    /// `bytes of values`), of the kind `Render`, at the place where the template was.
    pub fn render_text_within(&self, limits: &Limits, source: &str, value: &Value) -> Result<String>
        // If the source has a tree, the answer is what that tree means on the value, or names a limit.
        ensures means { let engine = texts_of formats answers self.now in (tree : Statements)
            → HasTree engine.syntax source.now tree
            → AnswersWithin engine limits.now None source.now tree (view value.now) result }
        // If it has none, the answer is its first fault, or that memory is out.
        ensures refused { let engine = texts_of formats answers self.now in
            ((tree : Statements) → HasTree engine.syntax source.now tree → ⊥)
            → IsErr result × IfErr result (IsSyntaxError engine.syntax source.now) }
    {
        let template = self.compile(CowStr::Borrowed(source))?;
        self.text_within(limits, template.lent(), None, value)
    }

    /// Renders the template of a name on a value within limits, or returns `None` if there is none of this name.
    ///
    /// Beyond a limit of steps, of bytes or of bytes of values the answer is the fault that names it.
    pub fn render_template_within(
        &self,
        limits: &Limits,
        name: &str,
        value: &Value,
    ) -> Option<Result<String>>
        // If a text is held under the name, the answer is what its tree means on the value, or names a limit.
        ensures means { let engine = texts_of formats answers self.now in
            (held : Stored) (tree : Statements) → engine.texts name.now ≡ Some held
            → ∥ HasTree held.syntax held.text tree ∥₁
            → IsSomeAnd result (AnswersWithin engine limits.now (Some name.now) held.text tree (view value.now)) }
        // If none is, and only then, there is no answer.
        ensures absent { IsNone result ↔ ((texts_of formats answers self.now).texts name.now ≡ None) }
    {
        let template = self.held(name)?;
        Some(self.text_within(limits, template.lent(), Some(name), value))
    }

    /// Renders the text of a template on a value to a writer within limits. If the text has no tree, nothing is
    /// written; beyond a limit (of steps, of bytes or of bytes of values) a beginning of the text is.
    pub fn render_text_to_within<W: io::Write>(
        &self,
        limits: &Limits,
        source: &str,
        value: &Value,
        out: &mut W,
    ) -> Result<()>
        // If the source has a tree, the writer receives what that tree means on the value, as far as it can.
        ensures means { let engine = texts_of formats answers self.now in (tree : Statements)
            → HasTree engine.syntax source.now tree
            → SendsWithin engine limits.now None source.now tree (view value.now) result
            (W.contents out.old) (W.contents out.new) }
        // It never receives more bytes than the limit is.
        ensures bounded { GrowsWithin limits.now.output (W.contents out.old) (W.contents out.new) }
        // If it has none, the answer is its first fault, or that memory is out.
        ensures refused { let engine = texts_of formats answers self.now in
            ((tree : Statements) → HasTree engine.syntax source.now tree → ⊥)
            → IsErr result × IfErr result (IsSyntaxError engine.syntax source.now) }
        // And then nothing is written.
        ensures unwritten { let engine = texts_of formats answers self.now in
            ((tree : Statements) → HasTree engine.syntax source.now tree → ⊥)
            → W.contents out.new ≡ W.contents out.old }
    {
        let template = self.compile(CowStr::Borrowed(source))?;
        self.send_within(limits, template.lent(), None, value, out)
    }

    /// Renders the template of a name on a value to a writer within limits, or returns `None` if there is none of this
    /// name. Beyond a limit (of steps, of bytes or of bytes of values) the writer receives a beginning of the text.
    pub fn render_template_to_within<W: io::Write>(
        &self,
        limits: &Limits,
        name: &str,
        value: &Value,
        out: &mut W,
    ) -> Option<Result<()>>
        // If a text is held under the name, the writer receives what its tree means on the value, as far as it can.
        ensures means { let engine = texts_of formats answers self.now in
            (held : Stored) (tree : Statements) → engine.texts name.now ≡ Some held
            → ∥ HasTree held.syntax held.text tree ∥₁
            → IsSomeAnd result (λ r. SendsWithin engine limits.now (Some name.now) held.text tree (view value.now) r
            (W.contents out.old) (W.contents out.new)) }
        // It never receives more bytes than the limit is.
        ensures bounded { GrowsWithin limits.now.output (W.contents out.old) (W.contents out.new) }
        // If none is, and only then, there is no answer.
        ensures absent { IsNone result ↔ ((texts_of formats answers self.now).texts name.now ≡ None) }
        // And then nothing is written.
        ensures unwritten { (texts_of formats answers self.now).texts name.now ≡ None
            → W.contents out.new ≡ W.contents out.old }
    {
        let template = self.held(name)?;
        Some(self.send_within(limits, template.lent(), Some(name), value, out))
    }

    // The answer of a template that is lent, under a name or none.
    fn text_within<'r>(
        &'r self,
        limits: &Limits,
        template: &'r Template<'r>,
        name: Option<&'r str>,
        value: &'r Value,
    ) -> Result<String>
        ensures { let engine = texts_of formats answers self.now in let t = template_of template.entry.now in
            let named = option_map (λ n. n.now) name.entry in
            TextWithin
            engine.depth
            limits.now
            (runs engine (engine_templates self.now) named t.source t.tree (view value.now))
            (meaning engine (engine_templates self.now) named t.source t.tree (view value.now))
            result }
    {
        let mut text = String::new(self.alloc());
        match self.write_within(limits, template, name, value, &mut text) {
            Ok(()) => Ok(text),
            Err(error) => Err(error),
        }
    }

    // Writes the same to a writer that is lent.
    fn send_within<'r, W: io::Write>(
        &'r self,
        limits: &Limits,
        template: &'r Template<'r>,
        name: Option<&'r str>,
        value: &'r Value,
        writer: &mut W,
    ) -> Result<()>
        ensures bounded { GrowsWithin limits.now.output (W.contents writer.old) (W.contents writer.new) }
        ensures means { let engine = texts_of formats answers self.now in let t = template_of template.entry.now in
            let named = option_map (λ n. n.now) name.entry in
            WritesWithin
            engine.depth
            IsAnyIo
            limits.now
            (runs engine (engine_templates self.now) named t.source t.tree (view value.now))
            result
            (W.contents writer.old)
            (W.contents writer.new)
            (meaning engine (engine_templates self.now) named t.source t.tree (view value.now)) }
    {
        let mut out = LentWriter::new(writer);
        self.write_within(limits, template, name, value, &mut out)
    }

    // Writes the same to an output.
    fn write_within<'r, O: Output>(
        &'r self,
        limits: &Limits,
        template: &'r Template<'r>,
        name: Option<&'r str>,
        value: &'r Value,
        out: &mut O,
    ) -> Result<()>
        ensures same { O.holds out.new ≡ O.holds out.old }
        ensures bounded { GrowsWithin limits.now.output (O.given out.old) (O.given out.new) }
        ensures means { let engine = texts_of formats answers self.now in let t = template_of template.entry.now in
            let named = option_map (λ n. n.now) name.entry in
            WritesWithin
            engine.depth
            (IsTakenError (O.mark out.new))
            limits.now
            (runs engine (engine_templates self.now) named t.source t.tree (view value.now))
            result
            (O.given out.old)
            (O.given out.new)
            (meaning engine (engine_templates self.now) named t.source t.tree (view value.now)) }
    {
        let alloc = self.alloc();
        let depth = self.depth();
        let running = Running {
            program: program_of(template),
            name,
            left: depth.max(1) - 1,
        };
        let stack: Stack<'r, NoSource> = Stack::over(alloc, value);
        let templates = EngineTemplates { engine: self };
        let (ended, _, _) = render_within(alloc, &self, running, stack, templates, *limits, out);
        reported_within(alloc, ended, depth, out)
    }
}
