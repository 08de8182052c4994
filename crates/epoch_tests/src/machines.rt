//! A few whole stories.

use epoch_core::{Illegal, Kind, Machine, Seen, Step, Token};
use pgas_base::{Ptr, Shape, Start};
use std::process::Abort;
use std::test::Fail;

/// The mark of a next word that was not stored yet.
const PENDING: u64 = u64::MAX;

/// Steps of one seat, each of which is allowed.
fn make(rt: &impl Abort, machine: &mut Machine, seat: u32, kinds: &[Kind]) {
    for kind in kinds {
        let step = Step { seat, kind: *kind };
        assert!(rt; machine.step(step).is_ok(), "{step:?}");
    }
}

/// A step that tells this.
fn tell(rt: &impl Abort, machine: &mut Machine, seat: u32, kind: Kind, seen: Seen) {
    assert_eq!(rt; machine.step(Step { seat, kind }), Ok(seen), "{kind:?}");
}

/// A step that is refused, and changes nothing, so that it is refused again.
fn refuse(rt: &impl Abort, machine: &mut Machine, seat: u32, kind: Kind, need: u8, word: u64) {
    for _ in 0..2 {
        assert_eq!(rt;
            machine.step(Step { seat, kind }),
            Err(Illegal { need, word }),
            "{kind:?}"
        );
    }
}

/// Pins a token, takes the only object from its stack, and shows it.
fn show_object(rt: &impl Abort, machine: &mut Machine, seat: u32, token: u32, ptr: Ptr) {
    let (locale, index) = (0, 1);
    make(
        rt,
        machine,
        seat,
        &[
            Kind::Register { locale, token },
            Kind::PinLook,
            Kind::PinSet,
        ],
    );
    make(
        rt,
        machine,
        seat,
        &[Kind::StackLook { locale }, Kind::StackNext, Kind::StackPop],
    );
    make(
        rt,
        machine,
        seat,
        &[
            Kind::TakeLook { locale, index },
            Kind::TakeTry { locale, index },
        ],
    );
    make(rt, machine, seat, &[Kind::Show { ptr }]);
}

/// A reclaim of a seat up to its collect, over one locale with two tokens.
fn collect(rt: &impl Abort, machine: &mut Machine, seat: u32, chain: u64) {
    make(
        rt,
        machine,
        seat,
        &[Kind::ElectLocal, Kind::ElectGlobal, Kind::EpochLook],
    );
    make(
        rt,
        machine,
        seat,
        &[
            Kind::ScanToken,
            Kind::ScanToken,
            Kind::Advance,
            Kind::Spread,
        ],
    );
    tell(rt, machine, seat, Kind::Collect, Seen::Word { word: chain });
}

#[test]
fn a_token_is_registered_once(rt: HostRuntime) -> Result<(), Fail> {
    let shape = Shape {
        locales: 1,
        tokens: 1,
        objects: 1,
        width: 2,
    };
    let mut machine = Machine::open(rt.alloc(), shape, Start::usual(), 1)?;
    refuse(&rt, &mut machine, 0, Kind::Unpin, 2, 0);
    tell(
        &rt,
        &mut machine,
        0,
        Kind::Register {
            locale: 0,
            token: 0,
        },
        Seen::Won,
    );
    assert_eq!(rt;
        machine.token_word(Token {
            locale: 0,
            number: 0
        }),
        1
    );
    assert_eq!(rt; machine.epoch(), 1);
    assert_eq!(rt; machine.locale_epoch(0), 1);
    assert_eq!(rt; machine.free_head(0), 1);
    refuse(
        &rt,
        &mut machine,
        0,
        Kind::Register {
            locale: 1,
            token: 1,
        },
        1,
        1,
    );
    refuse(&rt, &mut machine, 1, Kind::PinLook, 1, 1);
    Ok(())
}

// A reclaiming seat sends the one object that it freed home, and leaves both elections.
fn send_home(rt: &impl Abort, machine: &mut Machine, seat: u32, now: Ptr) {
    make(
        rt,
        machine,
        seat,
        &[Kind::HandLink {
            ptr: now,
            next: PENDING,
        }],
    );
    make(
        rt,
        machine,
        seat,
        &[
            Kind::HomeSwap {
                top: now,
                tail: now,
            },
            Kind::HomeLink,
        ],
    );
    make(rt, machine, seat, &[Kind::Leave, Kind::Leave]);
}

#[test]
fn a_deferral_that_waits_holds_back_the_second_advance(rt: HostRuntime) -> Result<(), Fail> {
    let shape = Shape {
        locales: 1,
        tokens: 2,
        objects: 1,
        width: 2,
    };
    let mut machine = Machine::open(rt.alloc(), shape, Start::usual(), 2)?;
    let ptr = Ptr::new(0, 1, 0);
    show_object(&rt, &mut machine, 0, 0, ptr);
    make(
        &rt,
        &mut machine,
        0,
        &[Kind::DeferLook { ptr }, Kind::DeferSwap],
    );
    make(
        &rt,
        &mut machine,
        1,
        &[Kind::Register {
            locale: 0,
            token: 1,
        }],
    );
    collect(&rt, &mut machine, 1, 0);
    make(&rt, &mut machine, 1, &[Kind::Leave, Kind::Leave]);
    assert_eq!(rt; machine.epoch(), 2);
    make(
        &rt,
        &mut machine,
        1,
        &[Kind::ElectLocal, Kind::ElectGlobal, Kind::EpochLook],
    );
    tell(
        &rt,
        &mut machine,
        1,
        Kind::ScanToken,
        Seen::Word { word: 3 },
    );
    refuse(&rt, &mut machine, 1, Kind::Advance, 2, 1);
    make(&rt, &mut machine, 1, &[Kind::Leave, Kind::Leave]);
    make(&rt, &mut machine, 0, &[Kind::DeferLink, Kind::Unpin]);
    collect(&rt, &mut machine, 1, 0);
    make(&rt, &mut machine, 1, &[Kind::Leave, Kind::Leave]);
    collect(&rt, &mut machine, 1, ptr.word());
    make(&rt, &mut machine, 1, &[Kind::Walk, Kind::Release { ptr }]);
    assert_eq!(rt; machine.epoch(), 4);
    assert_eq!(rt; machine.header_of(0, 1), 8);
    refuse(&rt, &mut machine, 1, Kind::Leave, 2, 1);
    send_home(&rt, &mut machine, 1, Ptr::new(0, 1, 1));
    Ok(())
}

#[test]
fn the_last_numbers_end(rt: HostRuntime) -> Result<(), Fail> {
    let shape = Shape {
        locales: 1,
        tokens: 1,
        objects: 1,
        width: 2,
    };
    let start = Start {
        epoch: 1 << 62,
        count: u32::MAX,
        stack: (1 << 40) - 2,
    };
    let mut machine = Machine::open(rt.alloc(), shape, start, 1024)?;
    let ptr = Ptr::new(0, 1, u32::MAX);
    show_object(&rt, &mut machine, 1023, 0, ptr);
    make(&rt, &mut machine, 1023, &[Kind::StackLook { locale: 0 }]);
    refuse(&rt, &mut machine, 1023, Kind::StackPop, 2, (1 << 62) + 2);
    make(
        &rt,
        &mut machine,
        1023,
        &[
            Kind::Unpin,
            Kind::ElectLocal,
            Kind::ElectGlobal,
            Kind::EpochLook,
        ],
    );
    refuse(&rt, &mut machine, 1023, Kind::ScanToken, 2, 1);
    make(&rt, &mut machine, 1023, &[Kind::Leave, Kind::Leave]);
    refuse(&rt, &mut machine, 1024, Kind::PinLook, 1, 1024);
    Ok(())
}

#[test]
fn a_worn_object_stays_out_of_the_hand(rt: HostRuntime) -> Result<(), Fail> {
    let shape = Shape {
        locales: 1,
        tokens: 2,
        objects: 1,
        width: 2,
    };
    let start = Start {
        epoch: 1,
        count: u32::MAX,
        stack: 0,
    };
    let mut machine = Machine::open(rt.alloc(), shape, start, 1)?;
    let ptr = Ptr::new(0, 1, u32::MAX);
    show_object(&rt, &mut machine, 0, 0, ptr);
    make(
        &rt,
        &mut machine,
        0,
        &[
            Kind::DeferLook { ptr },
            Kind::DeferSwap,
            Kind::DeferLink,
            Kind::Unpin,
        ],
    );
    for _ in 0..2 {
        collect(&rt, &mut machine, 0, 0);
        make(&rt, &mut machine, 0, &[Kind::Leave, Kind::Leave]);
    }
    collect(&rt, &mut machine, 0, ptr.word());
    make(&rt, &mut machine, 0, &[Kind::Walk, Kind::Release { ptr }]);
    assert_eq!(rt; machine.header_of(0, 1), 34_359_738_363);
    make(&rt, &mut machine, 0, &[Kind::Leave, Kind::Leave]);
    Ok(())
}
