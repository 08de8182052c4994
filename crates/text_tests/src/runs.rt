ghost use Rattle.std.specs.Prelude.{IfOk};
ghost use Rattle.run_text.specs.Runs.{IsOpening};

use pgas_base::{Ptr, Shape, Start};
use run_text::{
    Kind, RunEnd, RunFault, RunText, Step, StepLine, check_run, inputs_mean_one, read_run,
    write_checked, write_run, written_runs_read_back,
};
use shared_io::SureSource;
use std::alloc::{AllocError, Global};
use std::test::Fail;

const HEAD: &str = "pgas-run 1\nshape 1 1 1 2\nstart 1 0 0\nseats 1\n";

/// What a text reads as.
fn read(alloc: Global, text: &str) -> Result<RunText, RunFault>
    ensures { IfOk result (λ run. IsOpening run.shape run.start run.seats) }
{
    let mut source = SureSource::new(text.as_bytes().to_vec(alloc)?);
    read_run(alloc, &mut source)
}

/// What a text is answered by.
fn answer(alloc: Global, run: &RunText) -> Result<String, AllocError>
    requires { IsOpening run.now.shape run.now.start run.now.seats }
{
    let checked = check_run(alloc, run)?;
    write_checked(alloc, &checked, run.steps.len())
}

/// The text of a run of few steps.
fn written(alloc: Global, run: &RunText) -> Result<String, AllocError>
    requires { IsOpening run.now.shape run.now.start run.now.seats }
{
    if run.steps.as_slice().len() > 1 << 20 {
        return Err(AllocError);
    }
    write_run(alloc, run)
}

#[test]
fn the_laws_hold() {
    inputs_mean_one();
    written_runs_read_back();
}

#[test]
fn a_check_lists_items_and_names_the_first_refused_step(rt: HostRuntime) -> Result<(), Fail> {
    let rows = [
        (
            "0 register 0 0\n0 pin_look\n0 pin_set\n0 unpin\nend\n",
            "0 registered 0.0\n0 pinned 0.0\n0 unpinned 0.0\n# run 4\n",
        ),
        (
            "0 register 0 0\n0 register 0 0\nend\n",
            "0 registered 0.0\n# not a run: line 6 need 2 word 1\n",
        ),
        ("0 unpin\nend\n", "# not a run: line 5 need 2 word 0\n"),
        ("end\n", "# run 0\n"),
    ];
    for (steps, want) in rows {
        let text = format!(in rt.alloc(); "{HEAD}{steps}")?;
        let run = read(rt.alloc(), text.as_str())?;
        assert_eq!(rt; answer(rt.alloc(), &run)?.as_str(), want);
        assert_eq!(rt; written(rt.alloc(), &run)?.as_str(), text.as_str());
    }
    Ok(())
}

#[test]
fn numbers_and_blanks_are_read_in_every_form(rt: HostRuntime) -> Result<(), Fail> {
    let rows = [
        "# c\n\tpgas-run 1\r\n\nshape 01 1 1 2\n start 1 0 0 \nseats 0001\n0  register\t0 00\nend",
        "pgas-run 1\nshape 1 1 1 2\nstart 1 0 0\nseats 1\n0 touch 0.1.0\n0 show 00.01.000\nend\nx",
        "pgas-run 1\nshape 16 1024 128 4096\nstart 4611686018427387904 4294967295 1099511627775\nseats 1024\n4294967295 stack_put 15.16777215.4294967295 0.1.0\n0 hand_link 0.1.0 18446744073709551615\nend\n",
    ];
    let (_, rest) = rows.split_at(1);
    for text in rest {
        assert!(rt; read(rt.alloc(), text).is_ok(), "{text}");
    }
    // The last line has no LF.
    assert_eq!(rt;
        read(rt.alloc(), rows[0]).err(),
        Some(RunFault::BadLine { line: 8 })
    );
    Ok(())
}

#[test]
fn other_heads_are_refused_at_their_first_bad_line(rt: HostRuntime) -> Result<(), Fail> {
    let heads = [
        ("", 1),
        ("pgas-run 01\n", 1),
        ("pgas 1\n", 1),
        ("pgas-run 1\nshape 17", 2),
        ("pgas-run 1\nshape 1 1025", 2),
        ("pgas-run 1\nshape 16 1 524289", 2),
        ("pgas-run 1\nshape 1 1 8192 4095", 2),
        ("pgas-run 1\nshape 1 1 1 1\n", 2),
        ("pgas-run 1\nshape 1 1 1 2\nstart 0 ", 3),
        ("pgas-run 1\nshape 1 1 1 2\nstart 4611686018427387905", 3),
        ("pgas-run 1\nshape 1 1 1 2\nstart 1 4294967296", 3),
        ("pgas-run 1\nshape 1 1 1 2\nstart 1 0 1099511627776", 3),
        ("pgas-run 1\nshape 1 1 1 2\nstart 1 0 0\nseats 0\n", 4),
        ("pgas-run 1\nshape 1 1 1 2\nstart 1 0 0\nseats 1025", 4),
    ];
    for (text, line) in heads {
        assert_eq!(rt;
            read(rt.alloc(), text).err(),
            Some(RunFault::BadLine { line }),
            "{text}"
        );
    }
    Ok(())
}

#[test]
fn other_steps_are_refused(rt: HostRuntime) -> Result<(), Fail> {
    let steps = [
        "",
        "end 1\n",
        "0\n",
        "0 pin\n",
        "0 register 0\n",
        "0 register 256 0\n",
        "0 register 0 0 0\n",
        "4294967296 unpin\n",
        "0 show 0.1\n",
        "0 show 0.1.\n",
        "0 show 0 .1.0\n",
        "0 show 0.1.0.\n",
        "0 show 16.1.0\n",
        "0 show 0.0.0\n",
        "0 show 0.16777216.0\n",
        "0 show 0.1.4294967296\n",
        "0 hand_link 0.1.0 18446744073709551616\n",
        "seats 1\n",
    ];
    for step in steps {
        let text = format!(in rt.alloc(); "{HEAD}{step}")?;
        let fault = Some(RunFault::BadLine { line: 5 });
        assert_eq!(rt; read(rt.alloc(), text.as_str()).err(), fault, "{step}");
    }
    Ok(())
}

/// Adds steps of a seat.
fn add(steps: &mut Vec<StepLine>, seat: u32, kinds: &[Kind]) -> Result<(), AllocError> {
    for kind in kinds {
        let step = Step { seat, kind: *kind };
        steps.push(StepLine { line: 0, step })?;
    }
    Ok(())
}

const SCAN: [Kind; 5] = [
    Kind::ElectLocal,
    Kind::ElectGlobal,
    Kind::EpochLook,
    Kind::ScanToken,
    Kind::ScanToken,
];

// An object is taken, shown and deferred while its taker stays pinned, so that the second advance is refused.
fn steps_to_an_advance_too_many(alloc: Global) -> Result<Vec<StepLine>, AllocError> {
    let ptr = Ptr::new(0, 1, 0);
    let (locale, index) = (0, 1);
    let mut steps = Vec::new(alloc);
    add(
        &mut steps,
        0,
        &[
            Kind::Register { locale, token: 0 },
            Kind::PinLook,
            Kind::PinSet,
        ],
    )?;
    add(
        &mut steps,
        0,
        &[Kind::StackLook { locale }, Kind::StackNext, Kind::StackPop],
    )?;
    add(
        &mut steps,
        0,
        &[
            Kind::TakeLook { locale, index },
            Kind::TakeTry { locale, index },
        ],
    )?;
    add(
        &mut steps,
        0,
        &[Kind::Show { ptr }, Kind::DeferLook { ptr }, Kind::DeferSwap],
    )?;
    add(&mut steps, 1, &[Kind::Register { locale, token: 1 }])?;
    add(&mut steps, 1, &SCAN)?;
    add(
        &mut steps,
        1,
        &[
            Kind::Advance,
            Kind::Spread,
            Kind::Collect,
            Kind::Leave,
            Kind::Leave,
        ],
    )?;
    add(&mut steps, 1, &SCAN[..4])?;
    add(&mut steps, 1, &[Kind::Advance])?;
    Ok(steps)
}

#[test]
fn a_run_made_in_code_is_written_and_checked(rt: HostRuntime) -> Result<(), Fail> {
    let steps = steps_to_an_advance_too_many(rt.alloc())?;
    let shape = Shape {
        locales: 1,
        tokens: 2,
        objects: 1,
        width: 2,
    };
    let run = RunText {
        shape,
        start: Start::usual(),
        seats: 2,
        steps,
    };
    let text = written(rt.alloc(), &run)?;
    let again = read(rt.alloc(), text.as_str())?;
    let answered = answer(rt.alloc(), &again)?;
    assert!(rt;
        answered.as_str().ends_with(
            "1 claim local\n1 claim global\n# not a run: line 31 need 2 word 1\n"
        ),
        "{answered}"
    );
    let checked = check_run(rt.alloc(), &again)?;
    assert_eq!(rt;
        checked.end,
        RunEnd::NotRun {
            line: 31,
            need: 2,
            word: 1
        }
    );
    Ok(())
}
