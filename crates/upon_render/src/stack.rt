// The frames of a running template, and what a path finds in them.
ghost use Rattle.std.specs.Prelude.{◌≡◌, ◌≢◌, ◌∷◌, [], ◌++◌, ◌<◌, List, Some, IfOk, IfSome, IsSome, IsTrue, IsOkAnd, OnOk, OnErr, true, Bool, MatchOption, length, map};
ghost use Rattle.upon_types.specs.AstPath.{member_of, first_member, rest_members, ident_of};
ghost use Rattle.upon_types.specs.Cow.{cow_view};
ghost use Rattle.upon_types.specs.Span.{LiesIn};
ghost use Rattle.upon_types.specs.View.{view};
ghost use Rattle.upon_lookup.specs.Answer.{Answers, maybe_view, is_borrowed_value, IsLent, IsLentIfAny, Lends};
ghost use Rattle.upon_render.specs.Cursor.{lends_bound};
ghost use Rattle.upon_render.specs.Loop.{cursor};
ghost use Rattle.upon_lookup.specs.Environment.{Environment, value_source, binding, plain, binding_of};
ghost use Rattle.upon_render.specs.Frames.{framed, frame_over, frames_over, frame_lends, frames_lend};
ghost use Rattle.upon_lookup.specs.Seen.{FindsMade, FindsSeen, LooksUp, RootTells, TellsSeen, made_view};
ghost use Rattle.upon_lookup.specs.Lookup.{lookup, root_value, bindings_walk, or_not_in_scope};
ghost use Rattle.upon_lookup.specs.PathSpans.{MembersLieIn};
ghost use Rattle.upon_lookup.specs.Settled.{known_path, FindsSettled};
ghost use Rattle.upon_lookup.specs.Source.{Source};
ghost use Rattle.upon_render.specs.Roots.{pure_root, root_lends, HasSource, KeepsRoot, OrOutOfMemory};
ghost use Rattle.upon_lookup.specs.Walk.{context_walk};

use crate::entry::{find_in_entry, lookup_in_entry};
use crate::iter::LoopState;
use std::alloc::{AllocError, Global};
use upon_lookup::faults;
use upon_lookup::source::{NoSource, SourceError, ValueSource, members};
use upon_lookup::value::{
    Found, Made, find_bound, find_in_context, lookup_bound, lookup_in_context,
};
use upon_types::error::Result;
use upon_types::types::ast::{Access, Ident, Member, String as Quoted, Var};
use upon_types::value::{Value, ValueCow};

/// A frame that a caller pushes.
#[derive(Drop)]
pub enum State<'a> {
    /// A context.
    Scope(ValueCow<'a>),
    /// A name with its value.
    Var(&'a Ident, ValueCow<'a>),
    /// A loop.
    Loop(LoopState<'a>),
    /// Nothing below it is seen.
    Boundary,
}

impl<'a> State<'a> {
    // The frame that it is.
    #[inline(always)]
    fn into_frame(self) -> Frame<'a>
        ensures { result ≡ framed self.entry }
    {
        match self {
            State::Scope(context) => Frame::Scope(context),
            State::Var(name, value) => Frame::Var(name, value),
            State::Loop(state) => Frame::Loop(state),
            State::Boundary => Frame::Boundary,
        }
    }
}

/// A frame as a stack holds it: each state is one, and so is an entry, which only the machine pushes.
#[derive(Drop)]
pub enum Frame<'a> {
    /// A context.
    Scope(ValueCow<'a>),
    /// A context of one entry: its key, and its value, which is lent.
    Entry(&'a Quoted, &'a Value),
    /// A name with its value.
    Var(&'a Ident, ValueCow<'a>),
    /// A loop.
    Loop(LoopState<'a>),
    /// Nothing below it is seen.
    Boundary,
}

/// What answers if no frame does.
#[derive(Drop)]
enum Root<'a, V> {
    Value(&'a Value),
    Source(V),
}

/// The frames of a running template, over a context or a source of values.
#[derive(Drop)]
pub struct Stack<'a, V> {
    root: Root<'a, V>,
    frames: Vec<Frame<'a>>,
}

impl<'a> Stack<'a, NoSource> {
    ghost use Rattle.upon_render.specs.Stack.{root_of, frames_of};

    /// Creates a stack of no frame over a context. It takes no memory, and never fails.
    pub fn new(
        alloc: Global,
        context: &'a Value,
    ) -> std::result::Result<Stack<'a, NoSource>, AllocError>
        ensures frames { IsOkAnd result (λ stack. frames_of stack ≡ []) }
        ensures root { IsOkAnd result (λ stack. root_of stack ≡ Root.Value context.entry) }
    {
        Ok(Stack::over(alloc, context))
    }

    /// Returns the same stack as `new`, and no result.
    pub fn over(alloc: Global, context: &'a Value) -> Stack<'a, NoSource>
        ensures frames { frames_of result ≡ [] }
        ensures root { root_of result ≡ Root.Value context.entry }
    {
        Stack {
            root: Root::Value(context),
            frames: Vec::new(alloc),
        }
    }
}

impl<'a, V: ValueSource> Stack<'a, V> {
    ghost use Rattle.upon_render.specs.Stack.{stack_environment, root_of, frames_of, stack_lends, top, IsScope, IsVar, IsLoop, IsBoundary, Iterates};

    /// Creates a stack of no frame over a source of values. It takes no memory, and never fails.
    pub fn with_value_fn(alloc: Global, values: V) -> std::result::Result<Stack<'a, V>, AllocError>
        ensures frames { IsOkAnd result (λ stack. frames_of stack ≡ []) }
        ensures root { IsOkAnd result (λ stack. root_of stack ≡ Root.Source values) }
    {
        Ok(Stack::over_source(alloc, values))
    }

    /// Returns the same stack as `with_value_fn`, and no result.
    pub fn over_source(alloc: Global, values: V) -> Stack<'a, V>
        ensures frames { frames_of result ≡ [] }
        ensures root { root_of result ≡ Root.Source values }
    {
        Stack {
            root: Root::Source(values),
            frames: Vec::new(alloc),
        }
    }

    /// Returns what the path finds: in the innermost frame that binds its first member, or else in the root.
    ///
    /// What a lent value binds is lent. A source is asked once, for the whole path, if no frame binds it.
    pub fn lookup_var(&mut self, source: &str, var: &Var) -> Result<ValueCow<'a>>
        requires { MembersLieIn source.now (first_member var.now ∷ rest_members var.now) }
        ensures answer { (ask : Source V.State) (q : V.State) → HasSource V.ask V.value_state (root_of self.old) ask q
            → Answers
            cow_view
            source.now
            (lookup ask (stack_environment self.old) (first_member var.now) (rest_members var.now) q).answer
            result }
        ensures next { (ask : Source V.State) (q : V.State) → HasSource V.ask V.value_state (root_of self.old) ask q
            → OrOutOfMemory
            result
            (HasSource V.ask V.value_state (root_of self.new) ask
            (lookup ask (stack_environment self.old) (first_member var.now) (rest_members var.now) q).next) }
        ensures lent { (ask : Source V.State) (q : V.State) → stack_lends self.old (first_member var.now).access ≡ true
            → Lends
            IsLent
            (lookup ask (stack_environment self.old) (first_member var.now) (rest_members var.now) q).answer
            result }
        ensures frames { frames_of self.new ≡ frames_of self.old }
        ensures root { KeepsRoot V.ask V.holds (root_of self.old) (root_of self.new) }
    {
        let alloc = *self.frames.allocator();
        match search(alloc, source, self.frames.as_slice(), var) {
            Ok(Some(found)) => Ok(found),
            Ok(None) => lookup_root(alloc, source, &mut self.root, var),
            Err(error) => Err(error),
        }
    }

    /// Returns what the path finds, where it is; `None` says nothing.
    #[inline(always)]
    pub fn find<'s>(&'s self, var: &Var) -> Option<&'s Value>
        ensures { (ask : Source V.State) (q : V.State) → LooksUp
            (λ value. view value.now)
            ask
            (stack_environment self.now)
            (first_member var.now)
            (rest_members var.now)
            q
            result }
    {
        match find_in_frames(self.frames.as_slice(), var) {
            Found::Lent(value) => Some(value),
            Found::Held(value) => Some(value),
            Found::Unknown => None,
            Found::Below => find_in_root(&self.root, var),
        }
    }

    /// Returns what the path finds, if that is lent for longer than the frames; `None` says nothing.
    #[inline(always)]
    pub fn find_lent(&self, var: &Var) -> Option<&'a Value>
        ensures { (ask : Source V.State) (q : V.State) → LooksUp
            (λ value. view value.now)
            ask
            (stack_environment self.now)
            (first_member var.now)
            (rest_members var.now)
            q
            result }
    {
        match find_in_frames(self.frames.as_slice(), var) {
            Found::Lent(value) => Some(value),
            Found::Held(_) => None,
            Found::Unknown => None,
            Found::Below => find_in_root(&self.root, var),
        }
    }

    /// Returns what the path finds, if a loop says it of itself; `None` says nothing.
    pub fn find_made(&self, var: &Var) -> Option<Made<'_>>
        ensures { (ask : Source V.State) (q : V.State) → LooksUp
            made_view
            ask
            (stack_environment self.now)
            (first_member var.now)
            (rest_members var.now)
            q
            result }
    {
        made_in_frames(self.frames.as_slice(), var)
    }

    /// Returns a copy of what the path finds where it is, or of what a loop says of itself; `None` says nothing. It
    /// fails if there is no memory for the copy.
    pub fn find_copy(&self, var: &Var) -> Option<std::result::Result<Value, AllocError>>
        ensures { (ask : Source V.State) (q : V.State) → IfSome result (λ copy. IfOk copy (λ value. LooksUp
            view
            ask
            (stack_environment self.now)
            (first_member var.now)
            (rest_members var.now)
            q
            (Some value))) }
    {
        match self.find(var) {
            Some(value) => Some(value.try_clone()),
            None => {
                let made = self.find_made(var)?;
                Some(made.to_value(*self.frames.allocator()))
            }
        }
    }

    /// Pushes one frame more, the innermost. If there is no memory, nothing changes.
    #[inline(always)]
    pub fn push(&mut self, state: State<'a>) -> std::result::Result<(), AllocError>
        ensures ok { OnOk result (frames_of self.new ≡ frames_of self.old ++ framed state.entry ∷ []) }
        ensures environment { OnOk result (stack_environment self.new
            ≡ frame_over (framed state.entry) (stack_environment self.old)) }
        ensures err { OnErr result (frames_of self.new ≡ frames_of self.old) }
        ensures root { root_of self.new ≡ root_of self.old }
    {
        self.push_frame(state.into_frame())
    }

    /// Does the same with a frame as the stack holds it.
    #[inline(always)]
    pub fn push_frame(&mut self, frame: Frame<'a>) -> std::result::Result<(), AllocError>
        ensures ok { OnOk result (frames_of self.new ≡ frames_of self.old ++ frame.entry ∷ []) }
        ensures environment { OnOk result (stack_environment self.new
            ≡ frame_over frame.entry (stack_environment self.old)) }
        ensures err { OnErr result (frames_of self.new ≡ frames_of self.old) }
        ensures root { root_of self.new ≡ root_of self.old }
    {
        self.frames.reserve(1)?;
        self.frames.push_reserved(frame);
        Ok(())
    }

    /// Removes the innermost frame.
    pub fn drop_frame(&mut self)
        requires { 0 < length (frames_of self.old) }
        ensures frames { (frame : Frame) × (frames_of self.old ≡ frames_of self.new ++ frame ∷ []) }
        ensures root { root_of self.new ≡ root_of self.old }
    {
        let last = self.frames.len() - 1;
        self.frames.truncate(last);
    }

    /// Removes the innermost frame, which is a scope, and returns its context.
    pub fn pop_scope(&mut self) -> ValueCow<'a>
        requires { IsScope (top (frames_of self.old)) }
        ensures frames { frames_of self.old ≡ frames_of self.new ++ Frame.Scope result ∷ [] }
        ensures root { root_of self.new ≡ root_of self.old }
    {
        match self.pop() {
            Frame::Scope(context) => context,
            Frame::Entry(_, _) => unreachable!(),
            Frame::Var(_, _) => unreachable!(),
            Frame::Loop(_) => unreachable!(),
            Frame::Boundary => unreachable!(),
        }
    }

    /// Removes the innermost frame, which is a variable, and returns its name and its value.
    pub fn pop_var(&mut self) -> (&'a Ident, ValueCow<'a>)
        requires { IsVar (top (frames_of self.old)) }
        ensures frames { frames_of self.old ≡ frames_of self.new ++ Frame.Var result.0 result.1 ∷ [] }
        ensures root { root_of self.new ≡ root_of self.old }
    {
        match self.pop() {
            Frame::Var(name, value) => (name, value),
            Frame::Scope(_) => unreachable!(),
            Frame::Entry(_, _) => unreachable!(),
            Frame::Loop(_) => unreachable!(),
            Frame::Boundary => unreachable!(),
        }
    }

    /// Removes the innermost frame, which is a loop, and returns the loop.
    pub fn pop_loop_state(&mut self) -> LoopState<'a>
        requires { IsLoop (top (frames_of self.old)) }
        ensures frames { frames_of self.old ≡ frames_of self.new ++ Frame.Loop result ∷ [] }
        ensures root { root_of self.new ≡ root_of self.old }
    {
        match self.pop() {
            Frame::Loop(state) => state,
            Frame::Scope(_) => unreachable!(),
            Frame::Entry(_, _) => unreachable!(),
            Frame::Var(_, _) => unreachable!(),
            Frame::Boundary => unreachable!(),
        }
    }

    /// Takes the innermost frame away, which is a boundary.
    pub fn pop_boundary(&mut self)
        requires { IsBoundary (top (frames_of self.old)) }
        ensures frames { frames_of self.old ≡ frames_of self.new ++ Frame.Boundary ∷ [] }
        ensures root { root_of self.new ≡ root_of self.old }
    {
        match self.pop() {
            Frame::Boundary => {}
            Frame::Scope(_) => unreachable!(),
            Frame::Entry(_, _) => unreachable!(),
            Frame::Var(_, _) => unreachable!(),
            Frame::Loop(_) => unreachable!(),
        }
    }

    /// Returns the loop of the innermost frame, which is a loop.
    pub fn last_loop_state_mut(&mut self) -> &mut LoopState<'a>
        requires { IsLoop (top (frames_of self.old)) }
        ensures { top (frames_of self.old) ≡ Some (Frame.Loop result.now) }
    {
        let last = self.frames.len() - 1;
        match &mut self.frames[last] {
            Frame::Loop(current) => current,
            Frame::Scope(_) => unreachable!(),
            Frame::Entry(_, _) => unreachable!(),
            Frame::Var(_, _) => unreachable!(),
            Frame::Boundary => unreachable!(),
        }
    }

    /// Returns whether the innermost frame is a loop.
    #[inline(always)]
    pub fn is_in_loop(&self) -> bool
        ensures { IsTrue result → IsLoop (top (frames_of self.now)) }
    {
        let count = self.frames.len();
        if count == 0 {
            return false;
        }
        matches!(&self.frames[count - 1], Frame::Loop(_))
    }

    /// Moves the loop of the innermost frame, which is a loop, to its next item; at the end it stays at the last one.
    pub fn iterate_loop(&mut self) -> Option<()>
        requires { IsLoop (top (frames_of self.old)) }
        ensures frames { (below : List Frame) (state : LoopState) → frames_of self.old ≡ below ++ Frame.Loop state ∷ []
            → Iterates
            result
            state
            (λ next. frames_of self.new ≡ below ++ Frame.Loop next ∷ []) }
        ensures root { root_of self.new ≡ root_of self.old }
    {
        let last = self.frames.len() - 1;
        match &mut self.frames[last] {
            Frame::Loop(state) => state.iterate(),
            Frame::Scope(_) => unreachable!(),
            Frame::Entry(_, _) => unreachable!(),
            Frame::Var(_, _) => unreachable!(),
            Frame::Boundary => unreachable!(),
        }
    }

    /// Returns the source of values below the frames, or `None` over a context.
    pub fn into_source(self) -> Option<V>
        ensures { MatchOption
            result
            (pure_root (root_of self.entry) ≢ value_source)
            (λ source. root_of self.entry ≡ Root.Source source) }
    {
        let Stack { root, frames: _ } = self;
        match root {
            Root::Value(_) => None,
            Root::Source(values) => Some(values),
        }
    }

    fn pop(&mut self) -> Frame<'a>
        requires { IsSome (top (frames_of self.old)) }
        ensures frames { frames_of self.old ≡ frames_of self.new ++ result ∷ [] }
        ensures root { root_of self.new ≡ root_of self.old }
    {
        match self.frames.pop() {
            Some(frame) => frame,
            None => unreachable!(),
        }
    }
}

// What the root has at the path, if that is a context.
#[inline(always)]
fn find_in_root<'a, V: ValueSource>(root: &Root<'a, V>, var: &Var) -> Option<&'a Value>
    ensures { (ask : Source V.State) (q : V.State) → RootTells
        ask
        (pure_root root.now)
        (first_member var.now)
        (rest_members var.now)
        q
        result }
{
    match root {
        Root::Value(context) => find_in_context(*context, var.first(), var.rest()),
        Root::Source(_) => None,
    }
}

// What the root has at the path.
fn lookup_root<'a, V: ValueSource>(
    alloc: Global,
    source: &str,
    root: &mut Root<'a, V>,
    var: &Var,
) -> Result<ValueCow<'a>>
    requires { MembersLieIn source.now (first_member var.now ∷ rest_members var.now) }
    ensures answer { (ask : Source V.State) (q : V.State) → HasSource V.ask V.value_state root.old ask q → Answers
        cow_view
        source.now
        (root_value ask (pure_root root.old) (first_member var.now) (rest_members var.now) q).answer
        result }
    ensures next { (ask : Source V.State) (q : V.State) → HasSource V.ask V.value_state root.old ask q → OrOutOfMemory
        result
        (HasSource V.ask V.value_state root.new ask
        (root_value ask (pure_root root.old) (first_member var.now) (rest_members var.now) q).next) }
    ensures lent { (ask : Source V.State) (q : V.State) → root_lends root.old ≡ true → Lends
        IsLent
        (root_value ask (pure_root root.old) (first_member var.now) (rest_members var.now) q).answer
        result }
    ensures root { KeepsRoot V.ask V.holds root.old root.new }
{
    match root {
        Root::Value(context) => {
            lookup_context(
                alloc,
                source,
                &ValueCow::Borrowed(*context),
                var.first(),
                var.rest(),
            )
        }
        Root::Source(values) => ask_source(alloc, source, values, var),
    }
}

// What the source answers to the path.
fn ask_source<'a, V: ValueSource>(
    alloc: Global,
    source: &str,
    values: &mut V,
    var: &Var,
) -> Result<ValueCow<'a>>
    requires { MembersLieIn source.now (first_member var.now ∷ rest_members var.now) }
    ensures answer { Answers
        cow_view
        source.now
        (root_value (V.ask values.old) value_source (first_member var.now) (rest_members var.now)
        (V.value_state values.old)).answer
        result }
    ensures next { OrOutOfMemory
        result
        (V.value_state values.new ≡ (root_value (V.ask values.old) value_source (first_member var.now)
        (rest_members var.now) (V.value_state values.old)).next) }
    ensures stays { V.ask values.new ≡ V.ask values.old }
    ensures same { V.holds values.new ≡ V.holds values.old }
{
    let path = match members(alloc, var.path.as_slice()) {
        Ok(path) => path,
        Err(error) => return Err(error.into()),
    };
    match values.value(path.as_slice()) {
        Ok(value) => Ok(ValueCow::Owned(value)),
        Err(SourceError::Refused(reason)) => {
            Err(faults::wrong(alloc, source, reason.as_str(), var.span()))
        }
        Err(SourceError::Memory) => Err(AllocError.into()),
    }
}

// What the frames have at the path, the innermost first, or `None` where they do not bind it.
fn search<'a>(
    alloc: Global,
    source: &str,
    frames: &[Frame<'a>],
    var: &Var,
) -> Result<Option<ValueCow<'a>>>
    requires { MembersLieIn source.now (first_member var.now ∷ rest_members var.now) }
    ensures { (env : Environment) (lent : Bool) → FindsSettled
        source.now
        (known_path (frames_over env frames.now) (frames_lend lent frames.now (first_member var.now).access)
        (first_member var.now) (rest_members var.now))
        (known_path env lent (first_member var.now) (rest_members var.now))
        result }
{
    let mut left = frames.len();
    while left > 0 {
        left -= 1;
        match lookup_frame(alloc, source, &frames[left], var) {
            Ok(Some(value)) => return Ok(Some(value)),
            Ok(None) => {}
            Err(error) => return Err(error),
        }
    }
    Ok(None)
}

// What the frames have at the path, the innermost first, where it is.
#[inline(always)]
fn find_in_frames<'s, 'a>(frames: &'s [Frame<'a>], var: &Var) -> Found<'s, 'a>
    ensures { (env : Environment) (lent : Bool) → FindsSeen
        (known_path (frames_over env frames.now) (frames_lend lent frames.now (first_member var.now).access)
        (first_member var.now) (rest_members var.now))
        (known_path env lent (first_member var.now) (rest_members var.now))
        result }
{
    let mut left = frames.len();
    while left > 0 {
        left -= 1;
        match find_in_frame(&frames[left], var) {
            Found::Lent(value) => return Found::Lent(value),
            Found::Held(value) => return Found::Held(value),
            Found::Unknown => return Found::Unknown,
            Found::Below => {}
        }
    }
    Found::Below
}

// What the innermost frame that binds the path says of itself, if that is a loop.
fn made_in_frames<'s>(frames: &'s [Frame<'_>], var: &Var) -> Option<Made<'s>>
    ensures { (env : Environment) (lent : Bool) → FindsMade
        (known_path (frames_over env frames.now) (frames_lend lent frames.now (first_member var.now).access)
        (first_member var.now) (rest_members var.now))
        result }
{
    let mut left = frames.len();
    while left > 0 {
        left -= 1;
        match (find_in_frame(&frames[left], var), &frames[left]) {
            (Found::Below, _) => {}
            (Found::Unknown, Frame::Loop(state)) => return state.find_made(var),
            _ => return None,
        }
    }
    None
}

// What the frame has at the path, where it is.
#[inline(always)]
fn find_in_frame<'s, 'a>(frame: &'s Frame<'a>, var: &Var) -> Found<'s, 'a>
    ensures { (env : Environment) (lent : Bool) → FindsSeen
        (known_path (frame_over frame.now env) (frame_lends frame.now (first_member var.now).access lent)
        (first_member var.now) (rest_members var.now))
        (known_path env lent (first_member var.now) (rest_members var.now))
        result }
{
    match frame {
        Frame::Scope(context) => match context {
            ValueCow::Borrowed(context) => {
                match find_in_context(*context, var.first(), var.rest()) {
                    Some(value) => Found::Lent(value),
                    None => Found::Unknown,
                }
            }
            ValueCow::Owned(context) => {
                match find_in_context(context, var.first(), var.rest()) {
                    Some(value) => Found::Held(value),
                    None => Found::Unknown,
                }
            }
        },
        Frame::Entry(key, value) => {
            match find_in_entry(*key, *value, var.first(), var.rest()) {
                Some(value) => Found::Lent(value),
                None => Found::Unknown,
            }
        }
        Frame::Var(ident, value) => find_named(*ident, value, var),
        Frame::Loop(state) => state.find(var),
        Frame::Boundary => Found::Unknown,
    }
}

// What a name with its value binds to the path, where it is.
#[inline(always)]
fn find_named<'s, 'a>(ident: &Ident, value: &'s ValueCow<'a>, var: &Var) -> Found<'s, 'a>
    ensures { TellsSeen
        (bindings_walk (binding (ident_of ident.now).text (plain (cow_view value.now)) ∷ []) (first_member var.now)
        (rest_members var.now))
        result }
{
    if let Access::Key(name) = &var.first().access {
        let word = name.name.as_str();
        if word == ident.name.as_str() {
            return find_bound(value, var.rest());
        }
    }
    Found::Below
}

// What the frame has at the path, or `None` where it does not bind it and what is below is seen.
fn lookup_frame<'a>(
    alloc: Global,
    source: &str,
    frame: &Frame<'a>,
    var: &Var,
) -> Result<Option<ValueCow<'a>>>
    requires { MembersLieIn source.now (first_member var.now ∷ rest_members var.now) }
    ensures { (env : Environment) (lent : Bool) → FindsSettled
        source.now
        (known_path (frame_over frame.now env) (frame_lends frame.now (first_member var.now).access lent)
        (first_member var.now) (rest_members var.now))
        (known_path env lent (first_member var.now) (rest_members var.now))
        result }
{
    match frame {
        Frame::Scope(context) => {
            match lookup_context(alloc, source, context, var.first(), var.rest()) {
                Ok(value) => Ok(Some(value)),
                Err(error) => Err(error),
            }
        }
        Frame::Entry(key, value) => {
            match lookup_in_entry(alloc, source, *key, *value, var.first(), var.rest()) {
                Ok(value) => Ok(Some(value)),
                Err(error) => Err(error),
            }
        }
        Frame::Var(ident, value) => lookup_named(alloc, source, *ident, value, var),
        Frame::Loop(state) => state.lookup_var(alloc, source, var),
        Frame::Boundary => Err(faults::not_in_scope(alloc, source, var.first().span)),
    }
}

// What a name with its value binds to the path.
fn lookup_named<'a>(
    alloc: Global,
    source: &str,
    ident: &Ident,
    value: &ValueCow<'a>,
    var: &Var,
) -> Result<Option<ValueCow<'a>>>
    requires { MembersLieIn source.now (rest_members var.now) }
    ensures answer { Answers
        maybe_view
        source.now
        (bindings_walk (binding (ident_of ident.now).text (plain (cow_view value.now)) ∷ []) (first_member var.now)
        (rest_members var.now))
        result }
    ensures lent { lends_bound (is_borrowed_value value.now)
        (binding_of (first_member var.now).access
        (binding (ident_of ident.now).text (plain (cow_view value.now)) ∷ [])) ≡ true → Lends
        IsLentIfAny
        (bindings_walk (binding (ident_of ident.now).text (plain (cow_view value.now)) ∷ []) (first_member var.now)
        (rest_members var.now))
        result }
{
    if let Access::Key(name) = &var.first().access {
        if name.name.as_str() == ident.name.as_str() {
            return lookup_bound(alloc, source, value, var.rest());
        }
    }
    Ok(None)
}

// What the path, by its first member and the others, finds in a context. It is a fault where the context does not have
// it.
fn lookup_context<'a>(
    alloc: Global,
    source: &str,
    context: &ValueCow<'a>,
    first: &Member,
    rest: &[Member],
) -> Result<ValueCow<'a>>
    requires span { LiesIn source.now first.now.span }
    requires spans { MembersLieIn source.now (map member_of rest.now) }
    ensures answer { Answers
        cow_view
        source.now
        (or_not_in_scope (context_walk (member_of first.now) (map member_of rest.now) (cow_view context.now))
        first.now.span)
        result }
    ensures lent { is_borrowed_value context.now ≡ true → Lends
        IsLent
        (or_not_in_scope (context_walk (member_of first.now) (map member_of rest.now) (cow_view context.now))
        first.now.span)
        result }
{
    match lookup_in_context(alloc, source, context, first, rest) {
        Ok(Some(value)) => Ok(value),
        Ok(None) => Err(faults::not_in_scope(alloc, source, first.span)),
        Err(error) => Err(error),
    }
}
