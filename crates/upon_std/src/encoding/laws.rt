// Laws of the functions. Nothing runs here: the clauses say what holds of their answers.
ghost use Rattle.std.specs.Prelude.{◌≡◌, ◌<◌, ◌≤◌, ◌++◌, ℕ, List, Ok, Some, chars, encode_utf8_all, length, max, All, IsTrue, IsUtf8};
ghost use Rattle.std.specs.List.{list_all};
ghost use Rattle.base64.specs.Engines.{standard};
ghost use Rattle.base64.specs.GeneralPurpose.{decode_of, encode_of, IsBytes};
ghost use Rattle.percent_encoding.specs.Percent.{percent_decode};
ghost use Rattle.json.specs.Json.{max_depth};
ghost use Rattle.upon_json.specs.Context.{text_value};
ghost use Rattle.upon_types.specs.Val.{Val};
ghost use Rattle.upon_std.specs.Encoding.Held.{IsHeld, nesting};
ghost use Rattle.upon_std.specs.Encoding.JsonText.{json_text};
ghost use Rattle.upon_std.specs.Encoding.Columns.{columns_of};
ghost use Rattle.upon_std.specs.Encoding.Padding.{centered, padded_left, padded_right};
ghost use Rattle.upon_std.specs.Encoding.Truncating.{front, truncated};
ghost use Rattle.upon_std.specs.Encoding.Url.{is_url_byte, url_text};

/// States that a text that is filled up takes exactly so many columns, or as many as it took where these are more.
pub fn padded_columns()
    ensures left { (n : ℕ) (text : List ℕ)
        → columns_of (chars (padded_left n text)) ≡ max n (columns_of (chars text)) }
    ensures right { (n : ℕ) (text : List ℕ) → IsUtf8 text
        → columns_of (chars (padded_right n text)) ≡ max n (columns_of (chars text)) }
    ensures center { (n : ℕ) (text : List ℕ) → IsUtf8 text
        → columns_of (chars (centered n text)) ≡ max n (columns_of (chars text)) }
{}

/// States that a text that is cut takes no more than so many columns, and that no longer front would.
pub fn truncated_columns()
    ensures at_most { (n : ℕ) (cs : List ℕ) → columns_of (truncated n cs) ≤ n }
    ensures whole { (n : ℕ) (cs : List ℕ) → columns_of cs ≤ n → truncated n cs ≡ cs }
    ensures longest { (n : ℕ) (start rest : List ℕ) → columns_of start ≤ n
        → length start ≤ length (front n (start ++ rest)) }
    ensures characters { (n : ℕ) (text : List ℕ) → IsUtf8 text
        → chars (encode_utf8_all (truncated n (chars text))) ≡ truncated n (chars text) }
{}

/// States that what is encoded for a URL has only bytes that may stand there, and decodes to the bytes again.
pub fn url_again()
    ensures clean { (bytes : List ℕ) → All (λ b. b < 256) bytes
        → IsTrue (list_all is_url_byte (url_text bytes)) }
    ensures again { (bytes : List ℕ) → All (λ b. b < 256) bytes
        → percent_decode (url_text bytes) ≡ bytes }
{}

/// States that what is in base64 decodes to the bytes again.
pub fn base64_again()
    ensures { (bytes : List ℕ) → IsBytes bytes
        → decode_of standard (encode_of standard bytes) ≡ Ok bytes }
{}

/// States that the text of JSON of a value reads as the value again, if memory holds the value and its lists and maps
/// nest no deeper than the reader goes.
pub fn json_again()
    ensures { (v : Val) → IsHeld v → nesting v ≤ max_depth → text_value (json_text v) ≡ Some v }
{}
