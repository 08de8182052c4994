ghost use Rattle.std.specs.Prelude.{◌≡◌, [], OnOk, IfOk, map, replicate};
ghost use Rattle.line_text.specs.Lines.{IsSaid};
ghost use Rattle.script_text.specs.Forms.{IsSpot, script_grammar};
ghost use Rattle.script_text.specs.Lines.{IsInRound, caller_at};
ghost use Rattle.script_text.specs.Scripts.{plain_round, plain_script};
ghost use Rattle.script_text.specs.ScriptText.{beginning, after, before_after, calls_after, with_call, is_counted, is_end, script_rules, IsMade};

use crate::forms::Spot;
use crate::lines::{Line, Stage};
use crate::scripts::{Call, Round, Script};
use line_text::Draft;
use shared_io::TooKind;
use std::alloc::{AllocError, Global};
use std::marker::Model;
use std::mem;

/// The most calls and `round` lines of a script.
const MOST_COUNTED: u64 = 1 << 20;

/// What the lines so far have made of a script.
#[derive(Debug, Drop)]
pub struct ScriptDraft {
    stage: Stage,
    /// The rounds before the present one.
    before: Vec<Round>,
    /// The calls of the present round.
    calls: Vec<Vec<Call>>,
}

impl Model for ScriptDraft {
    ghost use Rattle.std.specs.Prelude.{map};
    ghost use Rattle.script_text.specs.Drafts.{Progress};
    ghost use Rattle.script_text.specs.Scripts.{plain_round};

    ghost Value = { Progress };

    ghost view = { λ d. record { stage = d.stage; before = map plain_round d.before.items; calls = map (λ calls. calls.items) d.calls.items } };
}

impl ScriptDraft {
    pub fn new(alloc: Global) -> Self
        ensures { result ≡ beginning }
    {
        ScriptDraft {
            stage: Stage::AtPgas,
            before: Vec::new(alloc),
            calls: Vec::new(alloc),
        }
    }

    /// The script that the lines have made.
    pub fn finish(self) -> Result<Script, AllocError>
        requires { IsInRound self.stage }
        ensures { IfOk result (λ script. IsMade self (plain_script script)) }
    {
        let Stage::InRound(object, callers, _) = self.stage else {
            unreachable!()
        };
        let mut rounds = self.before;
        rounds.push(Round { calls: self.calls })?;
        Ok(Script {
            object,
            callers,
            rounds,
        })
    }
}

impl Draft<Line, Spot> for ScriptDraft {
    type Progress = ScriptDraft;

    ghost rules = { script_rules };

    ghost progress = { λ d. d };

    fn start(&self) -> Spot {
        Spot::Start(self.stage)
    }

    fn counts(&self, said: Option<Line>) -> bool
        ensures { result ≡ is_counted said }
    {
        matches!(said, Some(Line::Round | Line::Call(_)))
    }

    fn most(&self) -> u64 {
        MOST_COUNTED
    }

    fn kind(&self) -> TooKind {
        TooKind::Calls
    }

    fn ends(&self, said: Option<Line>) -> bool
        ensures { result ≡ is_end said }
    {
        matches!(said, Some(Line::End))
    }

    fn may_be_last(&self, said: Option<Line>) -> bool
        ensures { result ≡ is_end said }
    {
        self.ends(said)
    }

    // This is inlined into the reader's loop, so that no line is copied from call to call.
    #[inline(always)]
    fn take(&mut self, said: Option<Line>) -> Result<(), AllocError>
        requires { IsSaid script_grammar IsSpot said }
        ensures { OnOk result (self.new ≡ after self.old said) }
    {
        let Some(line) = said else {
            return Ok(());
        };
        match line {
            Line::Callers(callers) => {
                self.calls = silence(*self.calls.allocator(), callers as usize)?;
            }
            Line::Round => {
                let next = silence(*self.calls.allocator(), self.calls.len())?;
                let calls = mem::replace(&mut self.calls, next);
                self.before.push(Round { calls })?;
            }
            Line::Call(call) => push_call(&mut self.calls, self.stage.caller(), call)?,
            _ => (),
        }
        self.stage = self.stage.after(line);
        Ok(())
    }
}

/// A list without calls for each caller.
fn silence(alloc: Global, callers: usize) -> Result<Vec<Vec<Call>>, AllocError>
    ensures { IfOk result (λ lists. map (λ calls. calls.items) lists.items ≡ replicate callers []) }
{
    let mut lists = Vec::with_capacity(alloc, callers)?;
    for _ in 0..callers {
        lists.push(Vec::new(alloc))?;
    }
    Ok(lists)
}

/// Adds a call of a caller. A script may have many rounds of one call, so the first call takes no more
/// memory than it needs.
#[inline(always)]
fn push_call(calls: &mut Vec<Vec<Call>>, caller: usize, call: Call) -> Result<(), AllocError>
    ensures { OnOk result (map (λ calls. calls.items) calls.new.items ≡ with_call caller call (map (λ calls. calls.items) calls.old.items)) }
{
    if let Some(list) = calls.get_mut(caller) {
        if list.is_empty() {
            list.reserve_exact(1)?;
        }
        list.push(call)?;
    }
    Ok(())
}
