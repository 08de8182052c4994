ghost use Rattle.std.specs.Prelude.{◌≡◌, ◌<◌, ◌*◌, ◌^◌, ℕ, List, [], IfOk};
ghost use Rattle.epoch_laws.specs.Needs.{header_word_of};
ghost use Rattle.epoch_laws.specs.StackSteps.{free_head_word_of};
ghost use Rattle.epoch_laws.specs.States.{IsPlace, State};
ghost use Rattle.epoch_laws.specs.Steps.{move};
ghost use Rattle.epoch_laws.specs.declared.steps.Step.{Step};
ghost use Rattle.pgas_base.specs.Shapes.{IsShape};
ghost use Rattle.pgas_base.specs.Starts.{IsStart};
ghost use Rattle.pgas_base.specs.declared.shapes.Shape.{Shape};
ghost use Rattle.pgas_base.specs.declared.starts.Start.{Start};
ghost use Rattle.epoch_core.specs.Answers.{Makes};
ghost use Rattle.epoch_core.specs.Opened.{AreFirstLinks, AreNewSeats, first_link};
ghost use Rattle.epoch_core.specs.Runs.{Goes, IsAfter, TakesFresh};
ghost use Rattle.epoch_core.specs.Shown.{IsShowing};
ghost use Rattle.epoch_core.specs.Tables.{IsToken};

use crate::marks::Keeper;
use crate::objects::Object;
use crate::seats::Seat;
use crate::words::LISTS;
use epoch_laws::{Illegal, Kind, Seen, Step, Token};
use pgas_base::{Ptr, Shape, Start};
use pool_core::{FreeWord, Header, State as HeaderState};
use std::alloc::{AllocError, Global};

/// A state of the machine.
#[derive(Debug, Drop)]
pub struct Machine {
    pub(crate) shape: Shape,
    pub(crate) epoch: u64,
    pub(crate) election: u64,
    pub(crate) epochs: Vec<u64>,
    pub(crate) elections: Vec<u64>,
    pub(crate) lists: Vec<u64>,
    pub(crate) free_heads: Vec<FreeWord>,
    pub(crate) home_heads: Vec<u64>,
    pub(crate) tokens: Vec<u64>,
    pub(crate) headers: Vec<Header>,
    pub(crate) next: Vec<u64>,
    pub(crate) tags: Vec<Option<u64>>,
    pub(crate) keepers: Vec<Keeper>,
    pub(crate) seats: Vec<Seat>,
}

impl Machine {
    /// A machine of this shape in which nothing was done: every object is free and on its locale's stack. Only want of
    /// memory refuses it.
    pub fn open(
        alloc: Global,
        shape: Shape,
        start: Start,
        seats: u32,
    ) -> Result<Machine, AllocError>
        requires shape { IsShape shape }
        requires start { IsStart start }
        ensures { IfOk result (λ machine. IsAfter machine shape start seats []) }
    {
        let locales = usize::from(shape.locales);
        let count = start.count;
        let tokens = locales * shape.tokens as usize;
        let objects = locales * shape.objects as usize;
        let first = FreeWord {
            count: start.stack,
            index: 1,
        };
        let free = free_with(count);
        Ok(Machine {
            shape,
            epoch: start.epoch,
            election: 0,
            epochs: vec![in alloc; start.epoch; locales]?,
            elections: vec![in alloc; 0; locales]?,
            lists: vec![in alloc; 0; locales * LISTS as usize]?,
            free_heads: vec![in alloc; first; locales]?,
            home_heads: vec![in alloc; 0; locales]?,
            tokens: vec![in alloc; 0; tokens]?,
            headers: vec![in alloc; free; objects]?,
            next: opening_links(alloc, shape, count)?,
            tags: vec![in alloc; None; objects]?,
            keepers: vec![in alloc; Keeper::Nobody; objects]?,
            seats: opening_seats(alloc, seats)?,
        })
    }

    /// Makes a step, or tells the first need that isn't met and its word. Then nothing changes.
    pub fn step(&mut self, step: Step) -> Result<Seen, Illegal>
        ensures { (shape : Shape) (start : Start) (seats : ℕ) (steps : List Step) → IsAfter self.old shape start seats steps →
            Goes shape start seats steps step self.new result }
    {
        self.make(step.seat, step.kind)
    }

    fn make(&mut self, seat: u32, kind: Kind) -> Result<Seen, Illegal>
        ensures { (s : State) → IsShowing self.old s → TakesFresh s seat → Makes s (move s seat kind) self.new result }
    {
        match kind {
            Kind::Register { locale, token } => self.register(
                seat,
                Token {
                    locale,
                    number: token,
                },
            ),
            Kind::Unregister => self.unregister(seat),
            Kind::PinLook => self.pin_look(seat),
            Kind::PinSet => self.pin_set(seat),
            Kind::Unpin => self.unpin(seat),
            Kind::TakeLook { locale, index } => self.take_look(seat, Object { locale, index }),
            Kind::TakeTry { locale, index } => self.take_try(seat, Object { locale, index }),
            Kind::Show { ptr } => self.show(seat, ptr),
            Kind::Hold { ptr } => self.hold(seat, ptr),
            Kind::Touch { ptr } => self.touch(seat, ptr),
            Kind::Return { ptr } => self.give_back(seat, ptr),
            Kind::DeferLook { ptr } => self.defer_look(seat, ptr),
            Kind::DeferSwap => self.defer_swap(seat),
            Kind::DeferLink => self.defer_link(seat),
            Kind::ElectLocal => self.elect_local(seat),
            Kind::ElectGlobal => self.elect_global(seat),
            Kind::EpochLook => self.epoch_look(seat),
            Kind::ScanToken => self.scan_token(seat),
            Kind::Advance => self.advance(seat),
            Kind::Spread => self.spread(seat),
            Kind::Collect => self.collect(seat),
            Kind::Walk => self.walk(seat),
            Kind::Release { ptr } => self.release(seat, ptr),
            Kind::Leave => self.leave(seat),
            Kind::StackLook { locale } => self.stack_look(seat, locale),
            Kind::StackNext => self.stack_next(seat),
            Kind::StackPop => self.stack_pop(seat),
            Kind::StackPut { top, tail } => self.stack_put(seat, top, tail),
            Kind::HandLink { ptr, next } => self.hand_link(seat, ptr, next),
            Kind::HomeSwap { top, tail } => self.home_swap(seat, top, tail),
            Kind::HomeLink => self.home_link(seat),
            Kind::HomeTake { locale } => self.home_take(seat, locale),
            Kind::HomeWalk => self.home_walk(seat),
        }
    }

    /// The global epoch.
    pub fn epoch(&self) -> u64
        ensures { (s : State) → IsShowing self.now s → result ≡ s.words.epoch }
    {
        self.epoch
    }

    /// The epoch of a locale of the shape.
    pub fn locale_epoch(&self, locale: u8) -> u64
        ensures { (s : State) → IsShowing self.now s → locale < self.now.shape.locales → result ≡ s.words.epoch_of locale }
    {
        self.epoch_of(locale)
    }

    /// The word of a token of the shape.
    pub fn token_word(&self, token: Token) -> u64
        ensures { (s : State) → IsShowing self.now s → IsToken self.now.shape token → result ≡ s.words.token_word token }
    {
        self.word_of_token(token)
    }

    /// The word of the header of an object of the shape.
    pub fn header_of(&self, locale: u8, index: u32) -> u64
        ensures { (s : State) → IsShowing self.now s → IsPlace self.now.shape (record { locale = locale; index = index }) →
            result ≡ header_word_of s (record { locale = locale; index = index }) }
    {
        self.header_word_at(Object { locale, index })
    }

    /// The word of the head of a locale's stack of free objects.
    pub fn free_head(&self, locale: u8) -> u64
        ensures { (s : State) → IsShowing self.now s → locale < self.now.shape.locales → result ≡ free_head_word_of s locale }
    {
        self.free_head_word_at(locale)
    }
}

/// The header of a free object.
fn free_with(count: u32) -> Header
    ensures value { result ≡ record { count = count; state = HeaderState.Free } }
    ensures fits { count < 2 ^ 32 }
{
    Header {
        count,
        state: HeaderState::Free,
    }
}

fn opening_links(alloc: Global, shape: Shape, count: u32) -> Result<Vec<u64>, AllocError>
    requires { IsShape shape }
    ensures { IfOk result (λ links. AreFirstLinks shape count (shape.locales * shape.objects) links.items) }
{
    let objects = usize::from(shape.locales) * shape.objects as usize;
    let mut links = Vec::with_capacity(alloc, objects)?;
    for at in 0..objects {
        links.push(first_link(shape, count, at))?;
    }
    Ok(links)
}

/// The first next word of the object with this place in the tables: that of a pointer to the object behind
/// it, and 0 of the last of a locale.
fn first_link(shape: Shape, count: u32, at: usize) -> u64
    requires shape { IsShape shape }
    requires at { at < shape.locales * shape.objects }
    ensures { result ≡ first_link shape count at }
{
    let index = at % shape.objects as usize + 1;
    if index == shape.objects as usize {
        return 0;
    }
    let locale = at / shape.objects as usize;
    Ptr::new(locale as u8, index as u32 + 1, count).word()
}

fn opening_seats(alloc: Global, count: u32) -> Result<Vec<Seat>, AllocError>
    ensures { IfOk result (λ seats. AreNewSeats count seats.items) }
{
    let mut seats = Vec::with_capacity(alloc, count as usize)?;
    for _seat in 0..count {
        seats.push(Seat::new())?;
    }
    Ok(seats)
}
