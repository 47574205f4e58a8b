// What a call asks for is known, where all is known that its words say.
ghost use Rattle.std.specs.Prelude.{◌≡◌, codes, false, true};
ghost use Rattle.upon_tool_io.specs.Asks.{AsksFor};
ghost use Rattle.upon_tool_io.specs.Exact.{exact_words, known_contexts, IsRenderingOf, KnownWords};
ghost use Rattle.upon_tool_io.specs.declared.arguments.Call.TheVariants.{Check, Fit, Render};
ghost use Rattle.upon_tool_io.specs.declared.arguments.CheckCall.{CheckCall};
ghost use Rattle.upon_tool_io.specs.declared.arguments.FitCall.{FitCall};
ghost use Rattle.upon_tool_io.specs.declared.arguments.RenderCall.{RenderCall};

/// States that each part of a rendering that words ask for is just what they say, as its file, its output, the language
/// that values are escaped for, and the limits.
pub fn rendering_is_as_said()
    ensures { (words : KnownWords) (call : RenderCall)
        → AsksFor (exact_words words) (codes "render") (Render call) → IsRenderingOf words call }
{}

/// States that a check that words ask for is one on contexts exactly if they say that there are some.
pub fn contexts_are_as_said()
    ensures fit { (words : KnownWords) (call : FitCall)
        → AsksFor (exact_words words) (codes "check") (Fit call) → known_contexts words ≡ true }
    ensures check { (words : KnownWords) (call : CheckCall)
        → AsksFor (exact_words words) (codes "check") (Check call) → known_contexts words ≡ false }
{}
