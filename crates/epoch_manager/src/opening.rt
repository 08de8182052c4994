//! How a manager is opened.
ghost use Rattle.std.specs.Prelude.{◌≡◌, ◌↔◌, ◌<◌, ◌≤◌, ◌+◌, ◌++◌, ◌∷◌, [], length, IfOk, IsErrOf, IsOk, All, true, false, map};
ghost use Rattle.pgas_base.specs.Shapes.{IsShape};
ghost use Rattle.pgas_base.specs.Starts.{IsStart};
ghost use Rattle.epoch_manager.specs.Managers.{opening_of, pass_opening};
ghost use Rattle.epoch_manager.specs.Opened.{Breaks, IsIn, IsNew, IsIdlePass, AreOfOpening, IsOpenedWith};

use crate::faults::OpenFault;
use crate::held::HeldList;
use crate::managers::{ClientPass, Manager, Pass};
use crate::stances::Stance;
use epoch_table::{Client, TablePass, Words};
use pgas_base::{Shape, ShapeFault, Start};
use std::alloc::{AllocError, Global};

// The last epoch, from which no advance is made.
const LAST_EPOCH: u64 = 1 << 62;

// The counts of the stacks' heads are below this.
const STACK_COUNTS: u64 = 1 << 40;

// The most callers of a manager.
const MOST_CALLERS: u32 = 1024;

fn check_shape(shape: &Shape) -> Result<(), ShapeFault>
    ensures breaks { (fault : ShapeFault) → IsErrOf result fault ↔ Breaks shape.now fault }
    ensures ok { IsOk result ↔ IsShape shape.now }
{
    shape.check()
}

fn check_start(start: &Start) -> bool
    ensures yes { result ≡ true → IsStart start.now }
    ensures no { result ≡ false → ¬ IsStart start.now }
{
    1 <= start.epoch && start.epoch <= LAST_EPOCH && start.stack < STACK_COUNTS
}

fn check(shape: &Shape, start: &Start, callers: u32) -> Result<(), OpenFault>
    ensures shape { (fault : ShapeFault) → IsErrOf result (OpenFault.BadShape fault) ↔ Breaks shape.now fault }
    ensures start { IsErrOf result OpenFault.BadStart ↔ (IsShape shape.now × (¬ IsStart start.now)) }
    ensures callers { IsErrOf result OpenFault.Callers ↔ (IsShape shape.now × IsStart start.now × (¬ IsIn 1 1024 callers)) }
    ensures memory { ¬ IsErrOf result OpenFault.OutOfMemory }
    ensures ok { IfOk result (λ _. IsShape shape.now × IsStart start.now × IsIn 1 1024 callers) }
{
    if let Err(fault) = check_shape(shape) {
        return Err(OpenFault::BadShape { fault });
    }
    let starts = check_start(start);
    if !starts {
        return Err(OpenFault::BadStart);
    }
    if callers < 1 || MOST_CALLERS < callers {
        return Err(OpenFault::Callers);
    }
    Ok(())
}

// A pass for each of the table's, in the same order.
fn wrap<C: Client>(
    alloc: Global,
    words: &Words<C>,
    mut passes: Vec<TablePass<C>>,
) -> Result<Vec<Pass<C>>, AllocError>
    requires { All (IsNew C.terms words.now.table) passes.items }
    ensures same { IfOk result (λ v. map (λ p. p.pass) v.items ≡ passes.items) }
    ensures idle { IfOk result (λ v. All IsIdlePass v.items) }
{
    let mut wrapped = Vec::with_capacity(alloc, passes.len())?;
    while let Some(pass) = passes.pop() {
        wrapped.push(ClientPass {
            pass,
            phase: Stance::idle(),
            place: 0,
            held: HeldList::new(),
        })?;
    }
    wrapped.as_mut_slice().reverse();
    Ok(wrapped)
}

impl<C: Client> Manager<C> {
    /// Opens a manager of this shape for 1 to 1024 callers, whose objects are all free. The passes come in order of
    /// the callers' numbers. Of the numbers that break a limit the first, in this order, is the refusal: the shape,
    /// the start, the callers.
    pub fn open(
        alloc: Global,
        shape: Shape,
        start: Start,
        callers: u32,
        client: C,
    ) -> Result<(Manager<C>, Vec<Pass<C>>), OpenFault>
        ensures shape { (fault : ShapeFault) → IsErrOf result (OpenFault.BadShape fault) ↔ Breaks shape fault }
        ensures start { IsErrOf result OpenFault.BadStart ↔ (IsShape shape × (¬ IsStart start)) }
        ensures callers { IsErrOf result OpenFault.Callers ↔ (IsShape shape × IsStart start × (¬ IsIn 1 1024 callers)) }
        ensures ok { IfOk result (λ r. IsOpenedWith C.terms shape start callers client r.0 r.1.items) }
    {
        if let Err(fault) = check(&shape, &start, callers) {
            return Err(fault);
        }
        match Manager::of_numbers(alloc, shape, start, callers, client) {
            Ok(opened) => Ok(opened),
            Err(AllocError) => Err(OpenFault::OutOfMemory),
        }
    }

    fn of_numbers(
        alloc: Global,
        shape: Shape,
        start: Start,
        callers: u32,
        client: C,
    ) -> Result<(Manager<C>, Vec<Pass<C>>), AllocError>
        requires { IsShape shape × IsStart start × IsIn 1 1024 callers }
        ensures { IfOk result (λ r. IsOpenedWith C.terms shape start callers client r.0 r.1.items) }
    {
        let own = client.words();
        let (words, passes) = Words::open(alloc, shape, start, callers, client)?;
        let passes = wrap(alloc, &words, passes)?;
        let manager = Manager {
            words,
            shape,
            own,
            alloc,
        };
        Ok((manager, passes))
    }

    /// Takes the last pass out of the list, so that its caller can have it apart from the others, as in a thread of its
    /// own. `close` wants all of them in one list again, in any order.
    pub fn take_pass(&self, passes: &mut Vec<Pass<C>>) -> Pass<C>
        requires opening { AreOfOpening C.terms self.now passes.old.items }
        requires some { 0 < length passes.old.items }
        ensures taken { passes.old.items ≡ passes.new.items ++ result ∷ [] }
        ensures pass { pass_opening result ≡ opening_of self.now }
        ensures rest { AreOfOpening C.terms self.now passes.new.items }
        ensures count { length passes.new.items + 1 ≡ length passes.old.items }
        ensures idle { All IsIdlePass passes.old.items → IsIdlePass result }
        ensures rest_idle { All IsIdlePass passes.old.items → All IsIdlePass passes.new.items }
    {
        let Some(pass) = passes.pop() else {
            unreachable!()
        };
        pass
    }
}
