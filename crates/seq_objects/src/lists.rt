ghost use Rattle.std.specs.Prelude.{◌≡◌, ℕ, ◌+◌, ◌*◌, ◌%◌, ◌^◌, ◌≤◌, ◌==◌, List, OnOk, OnErr, IfOk, IsOk, IsTrue, ◌↔◌, if◌then◌else◌, length, vec_len, slice_index, slice_set};
ghost use Rattle.seq_objects.specs.ListSteps.{opening_list, IsDefined, reply_at, list_reply, list_after};

use pass_book::Object;
use std::alloc::{AllocError, Global};
use std::marker::Model;

/// What a list can be asked. Places count from 0.
#[derive(Clone, Copy, Debug, PartialEq, Eq)]
pub enum ListCall {
    Read { at: u64 },
    Write { at: u64, value: u64 },
    /// Stores `new` where the element equals `old`.
    Swap { at: u64, old: u64, new: u64 },
    /// Adds modulo 2^64.
    Add { at: u64, value: u64 },
    /// Makes the list at least so long, with zeros.
    Grow { to: u64 },
    Len,
}

impl ListCall {
    /// A list of this width can be asked so: a Grow is for at most the square of the width.
    pub fn is_defined(self, width: u32) -> bool
        ensures { IsTrue result ↔ IsDefined width self }
    {
        match self {
            ListCall::Grow { to } => to <= u64::from(width) * u64::from(width),
            _ => true,
        }
    }
}

/// What a list answers.
#[derive(Clone, Copy, Debug, PartialEq, Eq)]
pub enum ListReply {
    Value { value: u64 },
    Wrote,
    /// The element before the call.
    Was { value: u64 },
    /// The length after the call.
    Len { len: u64 },
    /// The place is not in the list, which has this length.
    Range { len: u64 },
}

/// A list for one caller. Contracts see its width and its elements.
#[derive(Debug, Drop)]
pub struct PlainList {
    width: u32,
    items: Vec<u64>,
}

impl Model for PlainList {
    ghost use Rattle.std.specs.Prelude.{◌*◌, ◌≤◌, vec_len};
    ghost use Rattle.seq_objects.specs.ListSteps.{ListState};

    ghost Value = { ListState };

    ghost view = { λ l. record { width = l.width; items = l.items.items } };

    ghost invariant = { λ l. (2 ≤ l.width) × (l.width ≤ 4096) × (vec_len l.items ≤ l.width * l.width) };
}

impl PlainList {
    /// A list of as many zeros as its width, which is 2 to 4,096.
    pub fn open(alloc: Global, width: u32) -> Result<PlainList, AllocError>
        requires least { 2 ≤ width }
        requires most { width ≤ 4096 }
        ensures width { IfOk result (λ list. list.width ≡ width) }
        ensures items { IfOk result (λ list. list.items ≡ opening_list width) }
        ensures opens { IfOk result (λ list. ⟦<PlainList as Object>⟧.opens list) }
    {
        let mut items = Vec::new(alloc);
        items.resize(width as usize, 0)?;
        Ok(PlainList { width, items })
    }

    /// Makes the call. Only a Grow past the length can want memory, and then the list is as before.
    pub fn act(&mut self, call: ListCall) -> Result<ListReply, AllocError>
        requires { IsDefined self.old.width call }
        ensures step { IfOk result (λ reply. ⟦<PlainList as Object>⟧.step self.old call reply self.new) }
        ensures reply { IfOk result (λ reply. reply ≡ list_reply self.old.width self.old.items call) }
        ensures after { let items = list_after self.old.width self.old.items call in
            OnOk result (self.new ≡ record self.old { items = items }) }
        ensures sure { let items = list_after self.old.width self.old.items call in
            length items ≤ length self.old.items → IsOk result }
        ensures err { OnErr result (self.new ≡ self.old) }
    {
        match call {
            ListCall::Read { at } => Ok(read(&self.items, at)),
            ListCall::Write { at, value } => Ok(write(&mut self.items, at, value)),
            ListCall::Swap { at, old, new } => Ok(swap(&mut self.items, at, old, new)),
            ListCall::Add { at, value } => Ok(add(&mut self.items, at, value)),
            ListCall::Grow { to } => {
                grow(&mut self.items, u64::from(self.width), to)?;
                Ok(ListReply::Len {
                    len: self.items.len() as u64,
                })
            }
            ListCall::Len => Ok(ListReply::Len {
                len: self.items.len() as u64,
            }),
        }
    }

    /// The elements.
    pub fn items(&self) -> &[u64]
        ensures elements { result.now ≡ self.now.items }
        ensures limit { length self.now.items ≤ self.now.width * self.now.width }
    {
        self.items.as_slice()
    }
}

fn out_of_range(items: &[u64]) -> ListReply
    ensures { result ≡ ListReply.Range (length items.now) }
{
    ListReply::Range {
        len: items.len() as u64,
    }
}

fn read(items: &[u64], at: u64) -> ListReply
    ensures { result ≡ reply_at items.now at (ListReply.Value (slice_index items.now at)) }
{
    match items.get(at as usize) {
        Some(value) => ListReply::Value { value: *value },
        None => out_of_range(items),
    }
}

fn write(items: &mut [u64], at: u64, value: u64) -> ListReply
    ensures reply { result ≡ reply_at items.old at ListReply.Wrote }
    ensures after { items.new ≡ slice_set items.old at value }
{
    if at < items.len() as u64 {
        items[at as usize] = value;
        ListReply::Wrote
    } else {
        out_of_range(items)
    }
}

fn swap(items: &mut [u64], at: u64, old: u64, new: u64) -> ListReply
    ensures reply { result ≡ reply_at items.old at (ListReply.Was (slice_index items.old at)) }
    ensures after { items.new ≡ (if slice_index items.old at == old then slice_set items.old at new else items.old) }
{
    if at < items.len() as u64 {
        let value = items[at as usize];
        if value == old {
            items[at as usize] = new;
        }
        ListReply::Was { value }
    } else {
        out_of_range(items)
    }
}

fn add(items: &mut [u64], at: u64, value: u64) -> ListReply
    ensures reply { result ≡ reply_at items.old at (ListReply.Was (slice_index items.old at)) }
    ensures after { items.new ≡ slice_set items.old at ((slice_index items.old at + value) % 2 ^ 64) }
{
    if at < items.len() as u64 {
        let was = items[at as usize];
        items[at as usize] = was.wrapping_add(value);
        ListReply::Was { value: was }
    } else {
        out_of_range(items)
    }
}

/// Lengthens the list with zeros, or leaves it as it is.
#[tactic(auto, using(crate::proofs::Lengths::multiple_in_square))]
fn grow(items: &mut Vec<u64>, width: u64, to: u64) -> Result<(), AllocError>
    requires least { 2 ≤ width }
    requires most { width ≤ 4096 }
    requires defined { to ≤ width * width }
    requires limit { vec_len items.old ≤ width * width }
    ensures after { OnOk result (items.new.items ≡ list_after width items.old.items (ListCall.Grow to)) }
    ensures limit { vec_len items.new ≤ width * width }
    ensures sure { to ≤ vec_len items.old → IsOk result }
    ensures err { OnErr result (items.new.items ≡ items.old.items) }
{
    let len = items.len() as u64;
    if to <= len {
        return Ok(());
    }
    let doubled = (2 * len).min(width * width);
    let grown = to.next_multiple_of(width).max(doubled);
    items.resize(grown as usize, 0)
}
