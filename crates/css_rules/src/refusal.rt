ghost use Rattle.std.specs.Prelude.{◌≡◌, ◌∷◌, [], IfOk, find};
ghost use Rattle.css_tokens.specs.declared.component.Component.{Block as the_block};
ghost use Rattle.css_tokens.specs.Trees.{pieces_of, pieces_all};
ghost use Rattle.css_rules.specs.Refusals.{sooner_of, is_sought, sought_in, first_refusal, late_import, leads, rank, sooner, syntax, unbuilt, is_revert_layer, is_url};
ghost use Rattle.std.specs.Option.{option_map};

use css_components::is_keyword;
use css_tokens::{Block, Component, Kind, OutOfMemory, Token};
use std::alloc::Global;

/// Why a sheet is refused. Of two causes at one place the one that stands first here is named.
#[derive(Clone, Copy, Debug)]
pub enum Cause {
    /// It is a construct that is not built yet.
    Unbuilt,
    /// It is an import that stands behind other rules or in a block.
    LateImport,
    /// It cannot be read.
    Syntax,
}

/// What a sheet is refused for.
#[derive(Clone, Copy, Debug)]
pub struct Refusal {
    /// How many bytes of the source stand before it.
    pub at: u32,
    pub cause: Cause,
}

/// The tokens of constructs that are not built yet.
#[derive(Clone, Copy, Debug)]
pub enum Sought {
    /// The keyword `revert-layer`, in a value.
    RevertLayer,
    /// This keyword, a Url token or a Function named `url`, in a value.
    RevertLayerOrUrl,
}

impl Cause {
    /// Its place in the order of causes.
    fn rank(self) -> u8
        ensures { result ≡ rank self }
    {
        match self {
            Cause::Unbuilt => 0,
            Cause::LateImport => 1,
            Cause::Syntax => 2,
        }
    }
}

impl Refusal {
    /// It cannot be read.
    pub fn syntax(at: u32) -> Refusal
        ensures { result ≡ syntax at }
    {
        Refusal {
            at,
            cause: Cause::Syntax,
        }
    }

    /// It is not built yet.
    pub fn unbuilt(at: u32) -> Refusal
        ensures { result ≡ unbuilt at }
    {
        Refusal {
            at,
            cause: Cause::Unbuilt,
        }
    }

    /// It is an import that stands too late.
    pub fn late_import(at: u32) -> Refusal
        ensures { result ≡ late_import at }
    {
        Refusal {
            at,
            cause: Cause::LateImport,
        }
    }

    /// Whether it comes first of two in the order of refusals: by place, and at one place by cause.
    fn leads(self, other: Refusal) -> bool
        ensures { result ≡ leads self other }
    {
        self.at < other.at || (self.at == other.at && self.cause.rank() <= other.cause.rank())
    }

    /// Of two refusals the one that is named.
    fn sooner(self, other: Refusal) -> Refusal
        ensures { result ≡ sooner self other }
    {
        if self.leads(other) { self } else { other }
    }
}

/// The refusal that is named of two that may stand.
pub fn sooner_of(first: Option<Refusal>, second: Option<Refusal>) -> Option<Refusal>
    ensures { result ≡ sooner_of first second }
{
    match (first, second) {
        (Some(a), Some(b)) => Some(a.sooner(b)),
        (Some(a), None) => Some(a),
        (None, other) => other,
    }
}

#[inline(always)]
fn is_revert_layer(alloc: Global, token: &Token) -> Result<bool, OutOfMemory>
    ensures { IfOk result (λ is. is ≡ is_revert_layer token.now.kind token.now.text) }
{
    match token.kind {
        Kind::Ident => is_keyword(alloc, token, "revert-layer"),
        _ => Ok(false),
    }
}

#[inline(always)]
fn is_url(alloc: Global, token: &Token) -> Result<bool, OutOfMemory>
    ensures { IfOk result (λ is. is ≡ is_url token.now.kind token.now.text) }
{
    match token.kind {
        Kind::Url => Ok(true),
        Kind::Function => is_keyword(alloc, token, "url"),
        _ => Ok(false),
    }
}

impl Sought {
    /// The place of the token where it is one of these.
    #[inline(always)]
    fn at(self, alloc: Global, token: &Token) -> Result<Option<u32>, OutOfMemory>
        ensures { IfOk result (λ at. at ≡ option_map (λ token. token.at) (find (is_sought self) (token.now ∷ []))) }
    {
        if self.is(alloc, token)? {
            Ok(Some(token.at))
        } else {
            Ok(None)
        }
    }

    #[inline(always)]
    fn is(self, alloc: Global, token: &Token) -> Result<bool, OutOfMemory>
        ensures { IfOk result (λ is. is ≡ is_sought self token.now) }
    {
        match self {
            Sought::RevertLayer => is_revert_layer(alloc, token),
            Sought::RevertLayerOrUrl => Ok(is_revert_layer(alloc, token)? || is_url(alloc, token)?),
        }
    }
}

/// Where the first such token stands in a component, at any depth.
#[cycle(sought)]
fn sought_in_one(
    alloc: Global,
    component: &Component,
    sought: Sought,
) -> Result<Option<u32>, OutOfMemory>
    ensures { IfOk result (λ at. at ≡ option_map (λ token. token.at) (find (is_sought sought) (pieces_of component.now))) }
{
    match component {
        Component::Single(token) => sought.at(alloc, token),
        Component::Block(block) => sought_in_block(alloc, block.get(), sought),
    }
}

#[cycle(sought)]
fn sought_in_block(alloc: Global, block: &Block, sought: Sought) -> Result<Option<u32>, OutOfMemory>
    ensures { IfOk result (λ at. at ≡ option_map (λ token. token.at) (find (is_sought sought) (pieces_of (the_block block.now)))) }
{
    match sought.at(alloc, &block.opening)? {
        Some(at) => Ok(Some(at)),
        None => sought_in_all(alloc, block.items.as_slice(), sought),
    }
}

/// Where the first such token stands in a list of components, at any depth.
#[cycle(sought)]
fn sought_in_all(
    alloc: Global,
    components: &[Component],
    sought: Sought,
) -> Result<Option<u32>, OutOfMemory>
    ensures { IfOk result (λ at. at ≡ option_map (λ token. token.at) (find (is_sought sought) (pieces_all components.now))) }
{
    for component in components {
        match sought_in_one(alloc, component, sought)? {
            Some(at) => return Ok(Some(at)),
            None => {}
        }
    }
    Ok(None)
}

/// The refusal of a construct that is not built yet, where one of its tokens stands in these components.
pub fn sought_in(
    alloc: Global,
    components: &[Component],
    sought: Sought,
) -> Result<Option<Refusal>, OutOfMemory>
    ensures { IfOk result (λ refusal. refusal ≡ first_refusal (sought_in sought components.now)) }
{
    match sought_in_all(alloc, components, sought)? {
        Some(at) => Ok(Some(Refusal::unbuilt(at))),
        None => Ok(None),
    }
}
