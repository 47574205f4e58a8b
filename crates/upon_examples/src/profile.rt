// The first example of docs/CONTEXTS.md, as it is there.
use serde::Serialize;
use std::alloc::Global;
use upon::{Engine, Result};

/// A person, with the headlines of what was posted.
#[derive(Drop, Serialize)]
pub struct Profile<'a> {
    pub name: &'a str,
    pub posts: Vec<Headline<'a>>,
}

/// A title, with how often it was liked.
#[derive(Drop, Serialize)]
pub struct Headline<'a> {
    pub title: &'a str,
    pub likes: Option<u32>,
}

/// Renders a page of a profile.
pub fn page(alloc: Global, profile: &Profile<'_>) -> Result<String> {
    let engine = Engine::new(alloc);
    let text = "{{ name }}:{% for post in posts %} {{ post.title }} ({{ post.likes }}){% endfor %}";
    let template = engine.compile(text.into())?;
    template.render(&engine, profile).to_string()
}
