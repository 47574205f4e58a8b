// The version.
ghost use Rattle.std.specs.Prelude.{◌≡◌, codes};

/// Returns the version of the engine.
pub fn version() -> &'static str
    ensures { result.now ≡ codes "0.11.0" }
{
    "0.11.0"
}
