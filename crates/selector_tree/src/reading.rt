//! A selector that is read from left to right, sign by sign. What is let go of is given to `mem::drop`, whose proof serves
//! every place: a value that goes out of scope would have to be shown dropped there anew.

ghost use Rattle.selector_tree.specs.Faults.{FaultIs};
ghost use Rattle.selector_types.specs.Names.{is_old_element};
ghost use Rattle.selector_tree.specs.Private.ReadingSteps.{chained, fresh, joined, linked, listing_end, listing_step, of_type, on_argument, on_call, on_colon, on_dot, on_joint, on_name, on_part, on_pseudo, on_type, on_white, pending_reading, pending_step, reading, step, untailed, with_element, with_member, with_simple, with_state, with_tail};
ghost use Rattle.selector_tree.specs.declared.reading.Phase.TheVariants.{Failed, Inside};
ghost use Rattle.selector_types.specs.declared.selector.Combinator.TheVariants.{Descendant};
ghost use Rattle.selector_types.specs.declared.selector.TypeName.TheVariants as types;
ghost use Rattle.selector_tree.specs.Signs.{lone_compound, read};
ghost use Rattle.std.specs.Option.{option_and_then};
ghost use Rattle.std.specs.Prelude.{◌≡◌, [], ◌∷◌, IfOk, IfErr, OnOk, Ok};

use crate::fault::SelectorFault;
use crate::sign::Sign;
use css_tokens::{Boxed, List, OutOfMemory, Text};
use selector_tokens::pseudo_text;
use selector_types::{Combinator, Compound, Link, Part, Selector, Simple, Tail, TypeName};
use std::alloc::Global;
use std::mem;

/// The compounds that are read, and the combinator behind the last.
#[derive(Drop)]
enum Front<'a> {
    Nothing,
    Joined(Compound<'a>, List<Link<'a>>, Combinator),
}

/// How far a selector is read.
#[derive(Clone, Copy)]
enum Phase {
    /// A compound has to follow, behind a leading combinator where the flag allows one.
    Due(bool),
    /// In a compound.
    Inside,
    /// Behind a `.`, of which the place is kept.
    Dotted(u32),
    /// Behind a colon, of which the place is kept.
    Coloned(u32),
    /// Behind two colons; the place of the first is kept.
    Doubled(u32),
    /// In white space behind a compound.
    Behind,
    /// What stands there is no selector.
    Failed,
}

/// A selector that is being read, and its last compound.
#[derive(Drop)]
struct Reading<'a> {
    phase: Phase,
    lead: Option<Combinator>,
    front: Front<'a>,
    compound: Compound<'a>,
}

/// A member of a list that is being read, and the place of its first token.
#[derive(Drop)]
struct Pending<'a> {
    reading: Reading<'a>,
    place: Option<u32>,
}

/// Whether a pseudo-element of this name may have one colon.
fn is_old_element(name: &str) -> bool
    ensures { result ≡ is_old_element name.now }
{
    matches!(name, "before" | "after" | "first-line" | "first-letter")
}

fn of_type<'a>(alloc: Global, kind: TypeName<'a>) -> Compound<'a>
    ensures { result ≡ of_type kind.entry }
{
    Compound {
        kind,
        parts: List::new(alloc),
        tail: None,
    }
}

impl<'a> Front<'a> {
    /// One more compound, and the combinator behind it.
    fn join(
        &mut self,
        alloc: Global,
        compound: Compound<'a>,
        combinator: Combinator,
    ) -> Result<(), OutOfMemory>
        ensures { OnOk result (self.new ≡ joined self.old compound.entry combinator) }
    {
        match mem::replace(self, Front::Nothing) {
            Front::Nothing => {
                let joined = Front::Joined(compound, List::new(alloc), combinator);
                mem::drop(mem::replace(self, joined));
                Ok(())
            }
            Front::Joined(first, mut rest, before) => {
                match rest.push(Link::Linked(before, compound)) {
                    Ok(()) => {
                        mem::drop(mem::replace(self, Front::Joined(first, rest, combinator)));
                        Ok(())
                    }
                    Err(fault) => {
                        mem::drop((first, rest));
                        Err(fault)
                    }
                }
            }
        }
    }
}

impl<'a> Reading<'a> {
    /// A compound begins.
    fn begin(&mut self, alloc: Global, phase: Phase, kind: TypeName<'a>)
        ensures { self.new ≡ reading phase self.old.lead self.old.front (of_type kind.entry) }
    {
        self.phase = phase;
        mem::drop(mem::replace(&mut self.compound, of_type(alloc, kind)));
    }

    /// A combinator behind the last compound. Behind a refusal for want of memory the reading is of no use.
    fn join(&mut self, alloc: Global, combinator: Combinator) -> Result<(), OutOfMemory>
        ensures { OnOk result (self.new ≡ linked combinator self.old.lead self.old.front self.old.compound) }
    {
        let compound = mem::replace(&mut self.compound, of_type(alloc, TypeName::None));
        self.front.join(alloc, compound, combinator)?;
        self.phase = Phase::Due(false);
        Ok(())
    }

    /// One more part of the last compound.
    fn add(&mut self, simple: Simple<'a>, at: u32) -> Result<(), OutOfMemory>
        ensures { OnOk result (self.new ≡ reading Inside self.old.lead self.old.front (with_simple self.old.compound simple.entry at)) }
    {
        self.compound.parts.push(Part::Placed(simple, at))?;
        self.phase = Phase::Inside;
        Ok(())
    }

    /// One more part of the last compound, behind which no pseudo-element may stand.
    fn add_part(&mut self, simple: Simple<'a>, at: u32) -> Result<(), OutOfMemory>
        ensures { OnOk result (self.new ≡ untailed self.old.compound.tail (reading Inside self.old.lead self.old.front (with_simple self.old.compound simple.entry at)) (reading Failed self.old.lead self.old.front self.old.compound)) }
    {
        if self.compound.tail.is_none() {
            self.add(simple, at)
        } else {
            mem::drop(simple);
            self.phase = Phase::Failed;
            Ok(())
        }
    }

    /// A part of a further compound, behind white space.
    fn add_behind(&mut self, alloc: Global, simple: Simple<'a>, at: u32) -> Result<(), OutOfMemory>
        ensures { OnOk result (self.new ≡ reading Inside self.old.lead (joined self.old.front self.old.compound Descendant) (with_simple (of_type types.None) simple.entry at)) }
    {
        match self.join(alloc, Combinator::Descendant) {
            Ok(()) => self.add(simple, at),
            Err(fault) => {
                mem::drop(simple);
                Err(fault)
            }
        }
    }

    /// The pseudo-element of the last compound, with its states.
    fn end(&mut self, alloc: Global, tail: Tail<'a>) -> Result<(), OutOfMemory>
        ensures { OnOk result (self.new ≡ reading Inside self.old.lead self.old.front (with_tail self.old.compound tail.entry)) }
    {
        self.compound.tail = Some(Boxed::new(alloc, tail)?);
        self.phase = Phase::Inside;
        Ok(())
    }

    /// A pseudo-element of the last compound.
    fn add_element(&mut self, alloc: Global, element: Text<'a>) -> Result<(), OutOfMemory>
        ensures { OnOk result (self.new ≡ reading Inside self.old.lead self.old.front (with_element self.old.compound element.entry)) }
    {
        let states = List::new(alloc);
        self.end(alloc, Tail { element, states })
    }

    /// One more state of the pseudo-element of the last compound.
    fn add_state(
        &mut self,
        alloc: Global,
        tail: Boxed<Tail<'a>>,
        state: Text<'a>,
    ) -> Result<(), OutOfMemory>
        ensures { OnOk result (self.new ≡ reading Inside self.old.lead self.old.front (with_state self.old.compound tail.entry state.entry)) }
    {
        let mut tail = tail.into_inner();
        tail.states.push(state)?;
        self.end(alloc, tail)
    }

    fn on_type(&mut self, alloc: Global, kind: TypeName<'a>) -> Result<(), OutOfMemory>
        ensures { OnOk result (self.new ≡ on_type kind.entry self.old.phase self.old.lead self.old.front self.old.compound) }
    {
        match self.phase {
            Phase::Due(_) => self.begin(alloc, Phase::Inside, kind),
            Phase::Behind if self.compound.tail.is_none() => {
                self.join(alloc, Combinator::Descendant)?;
                self.begin(alloc, Phase::Inside, kind);
            }
            _ => self.phase = Phase::Failed,
        }
        Ok(())
    }

    /// A name behind a colon, as its text is kept: a state behind a pseudo-element, and else such an element or a part.
    fn on_pseudo(&mut self, alloc: Global, name: Text<'a>, at: u32) -> Result<(), OutOfMemory>
        ensures { OnOk result (self.new ≡ on_pseudo name.entry at self.old.compound.tail self.old.lead self.old.front self.old.compound) }
    {
        match mem::replace(&mut self.compound.tail, None) {
            Some(tail) => self.add_state(alloc, tail, name),
            None if is_old_element(name.as_str()) => self.add_element(alloc, name),
            None => self.add(Simple::Pseudo(name), at),
        }
    }

    fn on_name(&mut self, alloc: Global, name: Text<'a>) -> Result<(), OutOfMemory>
        ensures { OnOk result (self.new ≡ on_name name.entry self.old.phase self.old.lead self.old.front self.old.compound) }
    {
        match self.phase {
            Phase::Dotted(at) if self.compound.tail.is_none() => {
                self.add(Simple::Class(name), at)
            }
            Phase::Coloned(at) => {
                let name = pseudo_text(alloc, name)?;
                self.on_pseudo(alloc, name, at)
            }
            Phase::Doubled(_) if self.compound.tail.is_none() => {
                let name = pseudo_text(alloc, name)?;
                self.add_element(alloc, name)
            }
            _ => self.on_type(alloc, TypeName::Name(name)),
        }
    }

    fn on_dot(&mut self, alloc: Global, at: u32) -> Result<(), OutOfMemory>
        ensures { OnOk result (self.new ≡ on_dot at self.old.phase self.old.lead self.old.front self.old.compound) }
    {
        match self.phase {
            Phase::Due(_) => self.begin(alloc, Phase::Dotted(at), TypeName::None),
            Phase::Inside => self.phase = Phase::Dotted(at),
            Phase::Behind if self.compound.tail.is_none() => {
                self.join(alloc, Combinator::Descendant)?;
                self.phase = Phase::Dotted(at);
            }
            _ => self.phase = Phase::Failed,
        }
        Ok(())
    }

    fn on_colon(&mut self, alloc: Global, at: u32) -> Result<(), OutOfMemory>
        ensures { OnOk result (self.new ≡ on_colon at self.old.phase self.old.lead self.old.front self.old.compound) }
    {
        match self.phase {
            Phase::Due(_) => self.begin(alloc, Phase::Coloned(at), TypeName::None),
            Phase::Inside => self.phase = Phase::Coloned(at),
            Phase::Behind if self.compound.tail.is_none() => {
                self.join(alloc, Combinator::Descendant)?;
                self.phase = Phase::Coloned(at);
            }
            Phase::Coloned(first) => self.phase = Phase::Doubled(first),
            _ => self.phase = Phase::Failed,
        }
        Ok(())
    }

    fn on_part(&mut self, alloc: Global, simple: Simple<'a>, at: u32) -> Result<(), OutOfMemory>
        ensures { OnOk result (self.new ≡ on_part simple.entry at self.old.phase self.old.lead self.old.front self.old.compound) }
    {
        match self.phase {
            Phase::Due(_) => {
                self.begin(alloc, Phase::Inside, TypeName::None);
                self.add(simple, at)
            }
            Phase::Inside => self.add_part(simple, at),
            Phase::Behind if self.compound.tail.is_none() => self.add_behind(alloc, simple, at),
            _ => {
                mem::drop(simple);
                self.phase = Phase::Failed;
                Ok(())
            }
        }
    }

    fn on_argument(&mut self, simple: Option<Simple<'a>>, at: u32) -> Result<(), OutOfMemory>
        ensures { OnOk result (self.new ≡ on_argument simple.entry at self.old.lead self.old.front self.old.compound) }
    {
        match simple {
            Some(simple) => self.add_part(simple, at),
            None => {
                self.phase = Phase::Failed;
                Ok(())
            }
        }
    }

    fn on_call(&mut self, simple: Option<Simple<'a>>) -> Result<(), OutOfMemory>
        ensures { OnOk result (self.new ≡ on_call simple.entry self.old.phase self.old.lead self.old.front self.old.compound) }
    {
        match self.phase {
            Phase::Coloned(at) => self.on_argument(simple, at),
            Phase::Doubled(at) => {
                mem::drop(simple);
                self.add_part(Simple::Foreign, at)
            }
            _ => {
                mem::drop(simple);
                self.phase = Phase::Failed;
                Ok(())
            }
        }
    }

    fn on_white(&mut self)
        ensures { self.new ≡ on_white self.old.phase self.old.lead self.old.front self.old.compound }
    {
        match self.phase {
            Phase::Due(_) | Phase::Behind => {}
            Phase::Inside => self.phase = Phase::Behind,
            _ => self.phase = Phase::Failed,
        }
    }

    fn on_joint(&mut self, alloc: Global, combinator: Combinator) -> Result<(), OutOfMemory>
        ensures { OnOk result (self.new ≡ on_joint combinator self.old.phase self.old.lead self.old.front self.old.compound) }
    {
        match self.phase {
            Phase::Due(true) => {
                self.lead = Some(combinator);
                self.phase = Phase::Due(false);
                Ok(())
            }
            Phase::Inside | Phase::Behind if self.compound.tail.is_none() => {
                self.join(alloc, combinator)
            }
            _ => {
                self.phase = Phase::Failed;
                Ok(())
            }
        }
    }

    /// One more sign.
    fn step(&mut self, alloc: Global, sign: Sign<'a>) -> Result<(), OutOfMemory>
        ensures { OnOk result (self.new ≡ step sign.entry self.old) }
    {
        match sign {
            Sign::Comment => Ok(()),
            Sign::White => {
                self.on_white();
                Ok(())
            }
            Sign::Joint(combinator) => self.on_joint(alloc, combinator),
            Sign::Name(name) => self.on_name(alloc, name),
            Sign::Star => self.on_type(alloc, TypeName::Universal),
            Sign::Dot(at) => self.on_dot(alloc, at),
            Sign::Colon(at) => self.on_colon(alloc, at),
            Sign::Whole(simple, at) => self.on_part(alloc, simple, at),
            Sign::Call(simple) => self.on_call(simple),
            Sign::Comma | Sign::Other => {
                self.phase = Phase::Failed;
                Ok(())
            }
        }
    }
}

#[inline(always)]
fn chained<'a>(alloc: Global, at: u32, reading: Reading<'a>) -> Result<Selector<'a>, OutOfMemory>
    ensures { IfOk result (λ r. r ≡ chained at reading.entry.lead reading.entry.front reading.entry.compound []) }
{
    let compound = reading.compound;
    let lead = reading.lead;
    match reading.front {
        Front::Nothing => Ok(Selector {
            lead,
            first: compound,
            rest: List::new(alloc),
            at,
        }),
        Front::Joined(first, mut rest, before) => {
            match rest.push(Link::Linked(before, compound)) {
                Ok(()) => Ok(Selector {
                    lead,
                    first,
                    rest,
                    at,
                }),
                Err(fault) => {
                    mem::drop((first, rest));
                    Err(fault)
                }
            }
        }
    }
}

impl<'a> Pending<'a> {
    /// Nothing is read of the member. A nested selector may begin with a combinator.
    fn fresh(alloc: Global, nested: bool) -> Pending<'a>
        ensures { result ≡ fresh nested }
    {
        Pending {
            reading: Reading {
                phase: Phase::Due(nested),
                lead: None,
                front: Front::Nothing,
                compound: of_type(alloc, TypeName::None),
            },
            place: None,
        }
    }

    /// One more component of the member: its sign, and its place.
    fn step(&mut self, alloc: Global, sign: Sign<'a>, at: u32) -> Result<(), OutOfMemory>
        ensures { OnOk result (self.new ≡ pending_step self.old sign.entry at) }
    {
        if self.place.is_none() && !matches!(&sign, Sign::White | Sign::Comment) {
            self.place = Some(at);
        }
        self.reading.step(alloc, sign)
    }
}

/// The selector that a member spells. One that spells none is refused at its first token, or where it ends.
#[inline(always)]
fn conclude<'a>(
    alloc: Global,
    pending: Pending<'a>,
    stop: u32,
) -> Result<Selector<'a>, SelectorFault>
    ensures found { IfOk result (λ s. pending_reading pending.entry stop ≡ Ok s) }
    ensures fault { IfErr result (λ e. FaultIs e (pending_reading pending.entry stop)) }
{
    match pending.reading.phase {
        Phase::Inside | Phase::Behind => {
            let at = pending.place.unwrap_or(0);
            Ok(chained(alloc, at, pending.reading)?)
        }
        _ => {
            let at = pending.place.unwrap_or(stop);
            mem::drop(pending);
            Err(SelectorFault::Syntax(at))
        }
    }
}

/// A list that is being read: its whole members, and the one that has begun.
#[derive(Drop)]
pub struct Listing<'a> {
    list: List<Selector<'a>>,
    pending: Pending<'a>,
}

impl<'a> Listing<'a> {
    /// Nothing is read of the list.
    pub fn fresh(alloc: Global, nested: bool) -> Listing<'a>
        ensures { result ≡ record { list = []; pending = fresh nested } }
    {
        Listing {
            list: List::new(alloc),
            pending: Pending::fresh(alloc, nested),
        }
    }

    /// The member that has begun, or its fault; a fresh one begins.
    fn end_member(&mut self, alloc: Global, nested: bool, at: u32) -> Result<(), SelectorFault>
        ensures found { OnOk result (with_member nested self.old.list (pending_reading self.old.pending at) ≡ Ok self.new) }
        ensures fault { IfErr result (λ e. FaultIs e (with_member nested self.old.list (pending_reading self.old.pending at))) }
    {
        let pending = mem::replace(&mut self.pending, Pending::fresh(alloc, nested));
        let selector = conclude(alloc, pending, at)?;
        self.list.push(selector)?;
        Ok(())
    }

    /// One more component of the list: its sign, and its place.
    pub fn step(
        &mut self,
        alloc: Global,
        nested: bool,
        sign: Sign<'a>,
        at: u32,
    ) -> Result<(), SelectorFault>
        ensures found { OnOk result (listing_step nested self.old sign.entry at ≡ Ok self.new) }
        ensures fault { IfErr result (λ e. FaultIs e (listing_step nested self.old sign.entry at)) }
    {
        if sign.is_comma() {
            mem::drop(sign);
            self.end_member(alloc, nested, at)
        } else {
            self.pending.step(alloc, sign, at)?;
            Ok(())
        }
    }

    /// The list, where the last member is one.
    #[inline(always)]
    pub fn finish(self, alloc: Global, end: u32) -> Result<List<Selector<'a>>, SelectorFault>
        ensures found { IfOk result (λ list. listing_end self.entry end ≡ Ok list) }
        ensures fault { IfErr result (λ e. FaultIs e (listing_end self.entry end)) }
    {
        let mut list = self.list;
        list.push(conclude(alloc, self.pending, end)?)?;
        Ok(list)
    }

    /// The compound of a list of one selector that is one compound without a pseudo-element.
    pub fn finish_alone(self, alloc: Global) -> Result<Option<Compound<'a>>, OutOfMemory>
        ensures { IfOk result (λ k. k ≡ option_and_then lone_compound (read (listing_end self.entry 0))) }
    {
        if !self.list.is_empty() {
            mem::drop(self);
            return Ok(None);
        }
        match conclude(alloc, self.pending, 0) {
            Ok(selector) => Ok(lone_compound(selector)),
            Err(SelectorFault::Syntax(_)) => Ok(None),
            Err(SelectorFault::Memory) => Err(OutOfMemory),
        }
    }
}

fn lone_compound<'a>(selector: Selector<'a>) -> Option<Compound<'a>>
    ensures { result ≡ lone_compound (selector.entry ∷ []) }
{
    if selector.first.tail.is_none() && selector.rest.is_empty() {
        Some(selector.first)
    } else {
        mem::drop(selector);
        None
    }
}
