// What is read of a token gives the text again that was written as it, so that no value ends its token.
ghost use Rattle.std.specs.Prelude.{◌≡◌, ℕ, List, Some, false, chars, encode_utf8_all, IsTrue, IsUtf8};
ghost use Rattle.std.specs.List.{list_all};
ghost use Rattle.std.specs.Str.{all_scalars};
ghost use Rattle.upon_types.specs.Answers.{well};
ghost use Rattle.upon_types.specs.Val.{Val, text_val};
ghost use Rattle.upon_meaning_spec.specs.DefaultFormat.{default_format};
ghost use Rattle.upon_quote.specs.Json.{json_content, quoted_json};
ghost use Rattle.upon_quote.specs.Shell.{has_nul, quoted_shell, shell_word};
ghost use Rattle.upon_quote.specs.Tokens.{json_format, shell_format, yaml_format};
ghost use Rattle.upon_quote.specs.Yaml.{is_visible, quoted_yaml, yaml_content};

/// The content of a JSON string reads as the text that was written as it.
pub fn json_again()
    ensures text { (text : List ℕ) → json_content (quoted_json text) ≡ Some text }
    ensures bytes { (text : List ℕ)
        → (json_format (text_val text)).text ≡ encode_utf8_all (quoted_json (chars text)) }
    ensures value { (v : Val) → IsUtf8 (default_format v).text
        → json_content (chars (json_format v).text) ≡ Some (chars (default_format v).text) }
{}

/// The content of a double-quoted scalar of YAML reads as the text that was written as it.
pub fn yaml_again()
    ensures text { (text : List ℕ) → yaml_content (quoted_yaml text) ≡ Some text }
    ensures bytes { (text : List ℕ)
        → (yaml_format (text_val text)).text ≡ encode_utf8_all (quoted_yaml (chars text)) }
    ensures value { (v : Val) → IsUtf8 (default_format v).text
        → yaml_content (chars (yaml_format v).text) ≡ Some (chars (default_format v).text) }
{}

/// Each character in it is printable, and none is a line break, so that it is on one line.
pub fn yaml_on_one_line()
    ensures { (text : List ℕ) → IsTrue (all_scalars text) → IsTrue (list_all is_visible (quoted_yaml text)) }
{}

/// A shell's word reads as the text that was written as it, which no text with U+0000 can be.
pub fn shell_again()
    ensures text { (text : List ℕ) → has_nul text ≡ false → shell_word (quoted_shell text) ≡ Some text }
    ensures bytes { (text : List ℕ) → has_nul text ≡ false
        → (shell_format (text_val text)).text ≡ encode_utf8_all (quoted_shell (chars text)) }
    ensures value { (v : Val) → IsUtf8 (default_format v).text → (shell_format v).end ≡ well
        → shell_word (chars (shell_format v).text) ≡ Some (chars (default_format v).text) }
    ensures refused { (word text : List ℕ) → shell_word word ≡ Some text → has_nul text ≡ false }
{}
