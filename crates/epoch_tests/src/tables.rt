use epoch_table::{Client, Words};
use pass_book::Object;
use pgas_base::{Ptr, Shape, Start};

// An object that has no calls.
struct Silence;

impl Object for Silence {
    type Call = ();

    type Reply = ();

    type State = ();

    ghost opens = { λ s. Unit {0} };

    ghost step = { λ s c r t. ⊥ };
}

// A client without words, which asks nothing.
#[derive(Drop)]
struct Nobody;

impl Client for Nobody {
    ghost use Rattle.std.specs.Prelude.{false, None};
    ghost use Rattle.std.proofs.lemmas.Bool.{false≢true};

    type Object = Silence;

    type View = ();

    ghost terms = { record {
      own = λ c. 0;
      start = λ c. tt;
      first = tt;
      unpinned = λ v. v;
      may_take = λ v l. Unit {0};
      may_reclaim = λ v l. Unit {0};
      gives_back = Unit {0};
      may = λ v a. ⊥;
      after = λ v a n. tt;
      enters = λ v a n. None;
      is_own_link = λ w. false;
      is_row_link = λ w. false;
      holds = λ c s x. Unit {0};
    } };

    fn words(&self) -> u32 {
        0
    }

    ghost object_opens = { λ c. tt };

    ghost opens = { λ c s. tt };

    ghost links = { λ c s x h. (λ w low is. absurd (false≢true is), λ p n at row standing which here low is. absurd (false≢true is)) };

    ghost kept_by_takes = { λ c s x d q row h may none. tt };

    ghost kept_by_shows = { λ c s x d q row h may. absurd may };

    ghost kept_by_returns = { λ c s x d q row h may own at. tt };

    ghost kept_by_deferrals = { λ c s x d q h may. absurd may };

    ghost kept_by_frees = { λ c s x d q row h may at. (tt, tt) };

    ghost kept_by_fills = { λ c s x d q at value row h may. absurd may };

    ghost kept_by_holds = { λ c s x d spot found h is at. (tt, λ legal. legal) };

    ghost kept_by_steps = { λ c s x d spot change found h may. absurd may };

    ghost kept_by_unpins = { λ c s x d h. tt };
}

#[test]
fn a_table_opens_and_shows_its_words_at_its_close(rt: HostRuntime) {
    let shape = Shape {
        locales: 2,
        tokens: 1,
        objects: 3,
        width: 2,
    };
    let start = Start {
        epoch: 5,
        count: 7,
        stack: 9,
    };
    let (words, passes) = Words::open(rt.alloc(), shape, start, 2, Nobody).expect(&rt, "memory");
    let (_, closed) = words.close(passes);
    let second = Ptr::new(0, 2, 7).word();
    for (place, word) in [
        (0, 5),
        (16, 5),
        (40, 9 * 16_777_216 + 1),
        (56, 5),
        (112, 56),
        (113, second),
        (121, 0),
    ] {
        assert_eq!(rt; closed.word(place), word, "{place}");
    }
    closed.free();
}
