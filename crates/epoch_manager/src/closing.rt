//! How a manager is closed.
ghost use Rattle.std.specs.Prelude.{◌≡◌, ℕ, ◌*◌, ◌<◌, ◌≤◌, ◌/◌, ◌%◌, [], length, map, IfOk, IfErr, slice_index, vec_len, vec_capacity};
ghost use Rattle.std.specs.Slots.{slots_items, slots_len, IsFull};
ghost use Rattle.pgas_base.specs.Shapes.{IsShape};
ghost use Rattle.pass_table.specs.Openings.{AreInOrder};
ghost use Rattle.epoch_table.specs.Layout.{InRow, OfClient, place, object_at, table_words};
ghost use Rattle.epoch_manager.specs.Closed.{ClosesWith, row_words};
ghost use Rattle.epoch_manager.specs.Managers.{callers_of};
ghost use Rattle.epoch_manager.specs.Opened.{AreOfOpening};

use crate::managers::{ClientPass, Manager, Pass};
use atomic_table::Closed as ClosedTable;
use epoch_table::{Client, TablePass, client_word, row_word};
use pgas_base::Shape;
use std::alloc::{AllocError, Global};

/// What stood in a manager when it was closed.
#[derive(Drop)]
pub struct Closed<C: Client> {
    pub client: C,
    /// The client's words.
    pub words: Vec<u64>,
    /// The words in the rows of all objects, by rising locale, then by index, then by place in the row.
    pub rows: Vec<u64>,
}

/// There was no memory for the words. The manager and the passes come back untouched.
#[derive(Drop)]
pub struct ManagerBack<C: Client> {
    pub manager: Manager<C>,
    pub passes: Vec<Pass<C>>,
}

// Memory for the client's words, for those of all rows and for the table's passes.
struct Memory<C: Client> {
    words: Vec<u64>,
    rows: Vec<u64>,
    passes: Vec<TablePass<C>>,
}

fn take_memory<C: Client>(
    alloc: Global,
    words: usize,
    rows: usize,
    passes: usize,
) -> Result<Memory<C>, AllocError>
    ensures words { IfOk result (λ m. (m.words.items ≡ []) × (vec_len m.words ≡ 0) × (words ≤ vec_capacity m.words)) }
    ensures rows { IfOk result (λ m. (m.rows.items ≡ []) × (vec_len m.rows ≡ 0) × (rows ≤ vec_capacity m.rows)) }
    ensures passes { IfOk result (λ m. (m.passes.items ≡ []) × (vec_len m.passes ≡ 0) × (passes ≤ vec_capacity m.passes)) }
{
    let words = Vec::with_capacity(alloc, words)?;
    let rows = Vec::with_capacity(alloc, rows)?;
    let passes = Vec::with_capacity(alloc, passes)?;
    Ok(Memory {
        words,
        rows,
        passes,
    })
}

// The table's passes, in the same order.
fn bare<C: Client>(mut passes: Vec<Pass<C>>, mut bare: Vec<TablePass<C>>) -> Vec<TablePass<C>>
    requires room { (bare.items ≡ []) × (vec_len bare ≡ 0) × (length passes.items ≤ vec_capacity bare) }
    ensures { result.items ≡ map (λ p. p.pass) passes.items }
{
    while let Some(pass) = passes.pop() {
        let ClientPass {
            pass,
            phase: _,
            place: _,
            held: _,
        } = pass;
        bare.push_reserved(pass);
    }
    bare.as_mut_slice().reverse();
    bare
}

// How many words all rows have.
fn many_words(shape: &Shape) -> usize
    requires { IsShape shape.now }
    ensures { result ≡ row_words shape.now }
{
    shape.locales as usize * shape.objects as usize * shape.width as usize
}

// The word of this number among those of all rows.
#[tactic(auto, unfolding(epoch_table::specs::Layout::object_at))]
fn nth_word(closed: &ClosedTable<(), Global>, shape: &Shape, number: usize) -> u64
    requires shape { IsShape shape.now }
    requires closed { IsFull closed.now.words × ((own : ℕ) × (slots_len closed.now.words ≡ table_words shape.now own)) }
    requires number { number < row_words shape.now }
    ensures { result ≡ slice_index (slots_items closed.now.words) (place shape.now (InRow (object_at shape.now (number / shape.now.width)) (number % shape.now.width))) }
{
    let width = shape.width as usize;
    let objects = shape.objects as usize;
    let object = number / width;
    row_word(
        closed,
        shape,
        (object / objects) as u8,
        (object % objects) as u32 + 1,
        (number % width) as u32,
    )
}

fn read_words(
    closed: &ClosedTable<(), Global>,
    shape: &Shape,
    own: u32,
    mut words: Vec<u64>,
) -> Vec<u64>
    requires shape { IsShape shape.now }
    requires closed { IsFull closed.now.words × (slots_len closed.now.words ≡ table_words shape.now own) }
    requires room { (words.items ≡ []) × (vec_len words ≡ 0) × (own ≤ vec_capacity words) }
    ensures count { length result.items ≡ own }
    ensures each { AreInOrder (λ k word. word ≡ slice_index (slots_items closed.now.words) (place shape.now (OfClient k))) result.items }
{
    for word in 0..own {
        words.push_reserved(client_word(closed, shape, word));
    }
    words
}

fn read_rows(closed: &ClosedTable<(), Global>, shape: &Shape, mut rows: Vec<u64>) -> Vec<u64>
    requires shape { IsShape shape.now }
    requires closed { IsFull closed.now.words × ((own : ℕ) × (slots_len closed.now.words ≡ table_words shape.now own)) }
    requires room { (rows.items ≡ []) × (vec_len rows ≡ 0) × (row_words shape.now ≤ vec_capacity rows) }
    ensures count { length result.items ≡ row_words shape.now }
    ensures each { AreInOrder (λ k word. word ≡ slice_index (slots_items closed.now.words) (place shape.now (InRow (object_at shape.now (k / shape.now.width)) (k % shape.now.width)))) result.items }
{
    for number in 0..many_words(shape) {
        rows.push_reserved(nth_word(closed, shape, number));
    }
    rows
}

impl<C: Client> Manager<C> {
    /// Closes the manager, with as many passes of its opening as it has callers, and gives its client, that one's words and
    /// the rows of all objects. It first takes memory for them. Where there is none, the manager and the passes come back.
    pub fn close(self, passes: Vec<Pass<C>>) -> Result<Closed<C>, ManagerBack<C>>
        requires opening { AreOfOpening C.terms self passes.items }
        requires count { length passes.items ≡ callers_of self }
        ensures ok { IfOk result (λ closed. ClosesWith C.terms C.Object.opens C.Object.step self passes.items closed.client closed.words.items closed.rows.items) }
        ensures err { IfErr result (λ back. (back.manager ≡ self) × (back.passes ≡ passes)) }
        ensures again { IfErr result (λ back. AreOfOpening C.terms back.manager back.passes.items × (length back.passes.items ≡ callers_of back.manager)) }
    {
        let many = many_words(&self.shape);
        let memory = take_memory(self.alloc, self.own as usize, many, passes.len());
        let Ok(
            Memory {
                words: for_words,
                rows: for_rows,
                passes: for_passes,
            },
        ) = memory
        else {
            return Err(ManagerBack {
                manager: self,
                passes,
            });
        };
        let Manager {
            words,
            shape,
            own,
            alloc: _,
        } = self;
        let (client, closed) = words.close(bare(passes, for_passes));
        let words = read_words(&closed, &shape, own, for_words);
        let rows = read_rows(&closed, &shape, for_rows);
        closed.free();
        Ok(Closed {
            client,
            words,
            rows,
        })
    }
}
