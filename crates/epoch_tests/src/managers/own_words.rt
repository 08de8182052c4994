//! Steps on a word of a client's own.
ghost use Rattle.std.specs.Prelude.{◌≡◌, All, IfOk};
ghost use Rattle.pgas_base.specs.declared.spots.Spot.TheVariants.{Own as OwnSpot};
ghost use Rattle.epoch_manager.specs.Managers.{plan_of, opening_of, pass_opening};

use super::shape;
use epoch_manager::{Manager, OpenFault, Pass};
use epoch_table::Client;
use pass_book::Object;
use pgas_base::{Spot, Start};
use std::alloc::Global;
use std::test::Fail;

// An object that has no calls.
struct Silence;

impl Object for Silence {
    type Call = ();

    type Reply = ();

    type State = ();

    ghost opens = { λ s. Unit {0} };

    ghost step = { λ s c r t. ⊥ };
}

// A client of four words, which allows each step on them, and has no object.
#[derive(Drop)]
struct Plain;

impl Client for Plain {
    ghost use Rattle.std.specs.Prelude.{false, None};
    ghost use Rattle.std.proofs.lemmas.Bool.{false≢true};
    ghost use Rattle.pgas_base.specs.declared.spots.Spot.TheVariants.{Own as OwnSpot, Row as RowSpot};
    ghost use Rattle.pass_book.specs.Histories.{IsLegal};
    ghost use Rattle.epoch_table.specs.Clients.{Steps, changed, with_spot};

    type Object = Silence;

    type View = ();

    ghost terms = { record {
      own = λ c. 4;
      start = λ c. tt;
      first = tt;
      unpinned = λ v. v;
      may_take = λ v l. Unit {0};
      may_reclaim = λ v l. Unit {0};
      gives_back = Unit {0};
      may = λ v a. elim a [ Steps spot change ↦ elim spot [ OwnSpot word ↦ Unit {0} | RowSpot q at ↦ ⊥ ] | _ ↦ ⊥ ];
      after = λ v a n. tt;
      enters = λ v a n. None;
      is_own_link = λ w. false;
      is_row_link = λ w. false;
      holds = λ c s x. Unit {0};
    } };

    fn words(&self) -> u32 {
        4
    }

    ghost object_opens = { λ c. tt };

    ghost opens = { λ c s. tt };

    ghost links = { λ c s x h. (λ w low is. absurd (false≢true is), λ p n at row standing which here low is. absurd (false≢true is)) };

    ghost kept_by_takes = { λ c s x d q row h may none. tt };

    ghost kept_by_shows = { λ c s x d q row h may. absurd may };

    ghost kept_by_returns = { λ c s x d q row h may own at. tt };

    ghost kept_by_deferrals = { λ c s x d q h may. absurd may };

    ghost kept_by_frees = { λ c s x d q row h may at. (tt, tt) };

    ghost kept_by_fills = { λ c s x d q at value row h may. absurd may };

    ghost kept_by_holds = { λ c s x d spot found h is at. (tt, λ legal. legal) };

    ghost kept_by_steps = { λ c s x d spot change found h may at.
        elim spot as (λ a. Unit {0} × (IsLegal (λ s. Unit {0}) (λ s c r t. ⊥) (tt {0}) x.entries → IsLegal (λ s. Unit {0}) (λ s c r t. ⊥) (tt {0}) (with_spot x a (changed change found)).entries))
        [ OwnSpot word ↦ (tt, λ legal. legal) | RowSpot q at ↦ (tt, λ legal. legal) ] };

    ghost kept_by_unpins = { λ c s x d h. tt };
}

fn third_word() -> Spot
    ensures { result ≡ OwnSpot 3 }
{
    Spot::Own { word: 3 }
}

// One step of each kind on a word, and what it answers.
fn steps_on_a_word(manager: &Manager<Plain>, pass: &mut Pass<Plain>) -> [u64; 6]
    requires pass { pass_opening pass.old ≡ opening_of manager.now }
    requires words { (plan_of manager.now).own ≡ 4 }
{
    manager.put(pass, third_word(), 5);
    let looked = manager.look(pass, third_word());
    let switched = manager.switch(pass, third_word(), 7);
    let kept = manager.trade(pass, third_word(), 5, 9);
    let traded = manager.trade(pass, third_word(), 7, u64::MAX);
    let raised = manager.raise(pass, third_word(), 2);
    let last = manager.look(pass, third_word());
    [looked, switched, kept, traded, raised, last]
}

// Opens a manager for one caller, and once more where memory was refused.
fn open_plain(alloc: Global) -> Result<(Manager<Plain>, Vec<Pass<Plain>>), OpenFault>
    ensures opening { IfOk result (λ r. All (λ p. pass_opening p ≡ opening_of r.0) r.1.items) }
    ensures words { IfOk result (λ r. (plan_of r.0).own ≡ 4) }
{
    match Manager::open(alloc, shape(1), Start::usual(), 1, Plain) {
        Err(OpenFault::OutOfMemory) => Manager::open(alloc, shape(1), Start::usual(), 1, Plain),
        answer => answer,
    }
}

#[test]
fn steps_answer_what_stood_in_the_word(rt: HostRuntime) -> Result<(), Fail> {
    let (manager, mut passes) = open_plain(rt.alloc())?;
    let Some(mut pass) = passes.pop() else {
        return Err("no pass".into());
    };
    let answers = steps_on_a_word(&manager, &mut pass);
    assert_eq!(rt; answers, [5, 5, 7, 7, u64::MAX, 1]);
    Ok(())
}
