// What is declared of functions and formatters.
ghost use Rattle.std.specs.Prelude.{List};
ghost use Rattle.upon_types.specs.Answers.{Function};
ghost use Rattle.upon_meaning_spec.specs.DefaultFormat.{default_format};
ghost use Rattle.upon_shape_spec.specs.Declared.{KeepsGiving, FormatsEach, Signature, KeepsSignatures, given_by};
ghost use Rattle.upon_shape_spec.specs.Shape.{shown_values};

/// States that a function which keeps each of its signatures gives what they say.
pub fn signatures_are_kept()
    ensures { (f : Function) (signatures : List Signature) → KeepsSignatures f signatures
        → KeepsGiving f (given_by signatures) }
{}

/// States that the default formatter, if none is set, has a text for each value without parts.
pub fn default_formats()
    ensures { FormatsEach default_format shown_values }
{}
