//! What callers tell one another between two rounds.
ghost use Rattle.std.specs.Prelude.{◌≡◌, ◌+◌, ◌<◌, length};
ghost use Rattle.pass_book.specs.Pages.{IsPage};
ghost use Rattle.script_engine.specs.Workers.{IsStill, AreStill, AreFit, AreOwn, HasLearnt, HasTold, HaveTold, AreTold, AreSpread};

use crate::rounds::Worker;
use crate::shared::Shared;
use script_text::Call;

/// The pass learns what this worker has seen, if it had calls.
fn gather_one<P: Send + Drop, O: Shared<Pass = P>>(
    object: &O,
    its: &[Call],
    other: &mut Worker<P>,
    pass: &mut P,
)
    requires other { O.fits object.now other.old.pass }
    requires pass { O.fits object.now pass.old × IsPage (O.caller pass.old) (O.page pass.old) }
    ensures other { IsStill (O.fits object.now) O.caller O.page other.old other.new }
    ensures pass { HasLearnt (O.fits object.now) O.caller O.page pass.old pass.new }
    ensures told { HasTold (O.fits object.now) O.caller O.page its.now other.old.pass (O.page pass.new).seen }
{
    if !its.is_empty() {
        object.inform(&mut other.pass, pass);
    }
}

/// The pass learns what all of these workers have seen that had calls.
fn gather<P: Send + Drop, O: Shared<Pass = P>>(
    object: &O,
    calls: &[Vec<Call>],
    others: &mut [Worker<P>],
    pass: &mut P,
)
    requires each { length calls.now ≡ length others.old }
    requires others { AreFit (O.fits object.now) others.old }
    requires pass { O.fits object.now pass.old × IsPage (O.caller pass.old) (O.page pass.old) }
    ensures others { AreStill (O.fits object.now) O.caller O.page others.old others.new }
    ensures pass { HasLearnt (O.fits object.now) O.caller O.page pass.old pass.new }
    ensures told { HaveTold (O.fits object.now) O.caller O.page (length others.old) calls.now others.old (O.page pass.new).seen }
{
    for k in 0..others.len() {
        gather_one(object, calls[k].as_slice(), &mut others[k], pass);
    }
}

/// All of these workers learn what the pass has seen.
fn spread<P: Send + Drop, O: Shared<Pass = P>>(object: &O, pass: &mut P, others: &mut [Worker<P>])
    requires others { AreFit (O.fits object.now) others.old }
    requires pass { O.fits object.now pass.old }
    ensures pass { O.fits object.now pass.new × (O.caller pass.new ≡ O.caller pass.old) × (O.page pass.new ≡ O.page pass.old) }
    ensures told { AreTold (O.fits object.now) O.caller O.page (O.page pass.old).seen (length others.old) others.old others.new }
{
    for k in 0..others.len() {
        object.inform(pass, &mut others[k].pass);
    }
}

/// After a round every caller learns what all have done: the first takes in a note of each that had calls,
/// and then gives a note of its own to each.
pub(crate) fn synchronize<P: Send + Drop, O: Shared<Pass = P>>(
    object: &O,
    calls: &[Vec<Call>],
    workers: &mut [Worker<P>],
)
    requires some { 0 < length workers.old }
    requires each { length calls.now ≡ length workers.old }
    requires fit { AreFit (O.fits object.now) workers.old }
    requires own { AreOwn O.caller O.page workers.old }
    ensures { AreSpread (O.fits object.now) O.caller O.page calls.now workers.old workers.new }
{
    let Some((_, theirs)) = calls.split_first() else {
        return;
    };
    let Some((first, others)) = workers.split_first_mut() else {
        return;
    };
    gather(object, theirs, others, &mut first.pass);
    spread(object, &mut first.pass, others);
}
