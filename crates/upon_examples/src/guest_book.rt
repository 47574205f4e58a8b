// The example of docs/HTML.md, as it is there.
use std::alloc::Global;
use upon::{Engine, Result, value};
use upon_html::pages;

/// Renders a guest book, with what guests wrote escaped.
pub fn guest_book(alloc: Global) -> Result<String> {
    let engine = Engine::new(alloc);
    let context = value! { in alloc;
        entries: [
            {name: "Ann", text: "<script>alert(1)</script>"},
            {name: "\" onmouseover=\"alert(1)", text: "2 < 3 & 4"},
        ],
    }?;
    let page = "{% for e in entries %}<p title=\"{{ e.name }}\">{{ e.text }}</p>\n{% endfor %}";
    pages::render_text(&engine, page, &context)
}
