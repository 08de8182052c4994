ghost use Rattle.std.specs.Prelude.{◌≡◌, ℕ, ◌+◌, ◌<◌, ◌≤◌, ◌^◌, List, ◌++◌, ◌∷◌, [], Some, None, Ok, true, IfOk, IfSome, MatchResult, length, take};
ghost use Rattle.line_text.specs.Lines.{line_says, IsSaid};
ghost use Rattle.line_text.specs.Readings.{Stands, HasReached, HasReachedAt, IsFault, HasTaken, IsTakeFault, IsCountFault, fault_of, IsCounted};
ghost use Rattle.line_text.specs.States.{IsPlaced, rest_says};
ghost use Rattle.line_text.specs.Texts.{text_of, count_of};

use crate::drafts::Draft;
use crate::faults::TextFault;
use crate::forms::{Form, Reject};
use crate::scans::{scan, scan_line};
use crate::states::{State, Step, step_with};

/// Where in a text a reader stands.
#[derive(Clone, Copy, Debug, PartialEq, Eq)]
pub struct Place<F> {
    pub state: State<F>,
    /// How many lines have ended.
    pub lines: u64,
    /// How many of them count.
    pub counted: u64,
}

/// The fault of a line that is refused, behind so many lines.
fn fault_at(reject: Reject, lines: u64) -> TextFault
    requires { lines < 2 ^ 63 }
    ensures { result ≡ fault_of reject (lines + 1) }
{
    match reject {
        Reject::Bad => TextFault::BadLine { line: lines + 1 },
        Reject::TooLarge { kind } => TextFault::TooLarge {
            kind,
            line: lines + 1,
        },
    }
}

/// Takes the bytes of a piece, up to the end of the text.
pub fn take_bytes<L: Copy, F: Form<L>, D: Draft<L, F>>(
    draft: &mut D,
    mut place: Place<F>,
    piece: &[u8],
) -> Result<Option<Place<F>>, TextFault>
    requires placed { IsPlaced F.grammar F.is_form (D.rules.start (D.progress draft.old)) place.state }
    requires lines { place.lines + length piece.now < 2 ^ 63 }
    requires counted { IsCounted D.rules place.lines place.counted }
    ensures placed { IfOk result (λ next. IfSome next (λ after. IsPlaced F.grammar F.is_form (D.rules.start (D.progress draft.new)) after.state)) }
    ensures counted { IfOk result (λ next. IfSome next (λ after. IsCounted D.rules after.lines after.counted × (after.lines ≤ place.lines + length piece.now))) }
    ensures led { (read : List ℕ) → length read + length piece.now ≤ 2 ^ 30 → Stands (text_of F.grammar D.rules) read (D.progress draft.old) place
        → MatchResult result (λ next. HasReached (text_of F.grammar D.rules) (read ++ piece.now) (D.progress draft.new) next) (IsFault (text_of F.grammar D.rules) (read ++ piece.now) ⊥) }
{
    let mut at = 0;
    while at < piece.len() {
        let Taken {
            place: after,
            at: from,
        } = take_lines(draft, place, piece, at)?;
        let Some(next) = after else {
            return Ok(None);
        };
        place = next;
        let (state, count) = scan(place.state, &piece[from..]);
        place.state = state;
        at = from + count;
        if at < piece.len() {
            match take_byte(draft, place, piece[at])? {
                Some(next) => place = next,
                None => return Ok(None),
            }
            at += 1;
        }
    }
    Ok(Some(place))
}

/// Where bytes of a piece have led: on, unless the text has ended, and how many were taken.
#[derive(Clone, Copy)]
struct Taken<F> {
    place: Option<Place<F>>,
    at: usize,
}

/// Takes whole lines of the form whose line begins there from the piece, as many as stand there, each at once.
fn take_lines<L: Copy, F: Form<L>, D: Draft<L, F>>(
    draft: &mut D,
    mut place: Place<F>,
    piece: &[u8],
    mut at: usize,
) -> Result<Taken<F>, TextFault>
    requires placed { IsPlaced F.grammar F.is_form (D.rules.start (D.progress draft.old)) place.state }
    requires lines { place.lines + length piece.now < 2 ^ 63 + at }
    requires counted { IsCounted D.rules place.lines place.counted }
    requires within { at ≤ length piece.now }
    ensures at { IfOk result (λ taken. (at ≤ taken.at) × (taken.at ≤ length piece.now)) }
    ensures placed { IfOk result (λ taken. IfSome taken.place (λ after. IsPlaced F.grammar F.is_form (D.rules.start (D.progress draft.new)) after.state)) }
    ensures counted { IfOk result (λ taken. IfSome taken.place (λ after. IsCounted D.rules after.lines after.counted × (after.lines + at ≤ place.lines + taken.at))) }
    ensures led { (read : List ℕ) → length read + length piece.now ≤ 2 ^ 30 → Stands (text_of F.grammar D.rules) (read ++ take at piece.now) (D.progress draft.old) place
        → MatchResult result (λ taken. HasReachedAt (text_of F.grammar D.rules) read piece.now (D.progress draft.new) taken.place taken.at) (IsFault (text_of F.grammar D.rules) (read ++ piece.now) ⊥) }
{
    let State::Lead { form } = place.state else {
        return Ok(Taken {
            place: Some(place),
            at,
        });
    };
    let mut form = form;
    let mut lines = place.lines;
    let mut counted = place.counted;
    while at < piece.len() {
        let Some(found) = scan_line(form, &piece[at..]) else {
            break;
        };
        at += found.1 + 1;
        match take_line(draft, lines, counted, Some(found.0))? {
            Some(more) => counted = more,
            None => return Ok(Taken { place: None, at }),
        }
        form = draft.start();
        lines += 1;
    }
    let place = Place {
        state: State::Lead { form },
        lines,
        counted,
    };
    Ok(Taken {
        place: Some(place),
        at,
    })
}

/// Takes one byte.
#[inline(always)]
fn take_byte<L: Copy, F: Form<L>, D: Draft<L, F>>(
    draft: &mut D,
    place: Place<F>,
    byte: u8,
) -> Result<Option<Place<F>>, TextFault>
    requires placed { IsPlaced F.grammar F.is_form (D.rules.start (D.progress draft.old)) place.state }
    requires lines { place.lines + 1 < 2 ^ 63 }
    requires counted { IsCounted D.rules place.lines place.counted }
    ensures placed { IfOk result (λ next. IfSome next (λ after. IsPlaced F.grammar F.is_form (D.rules.start (D.progress draft.new)) after.state)) }
    ensures counted { IfOk result (λ next. IfSome next (λ after. IsCounted D.rules after.lines after.counted × (after.lines ≤ place.lines + 1))) }
    ensures led { (read : List ℕ) → length read < 2 ^ 30 → Stands (text_of F.grammar D.rules) read (D.progress draft.old) place
        → MatchResult result (λ next. HasReached (text_of F.grammar D.rules) (read ++ byte ∷ []) (D.progress draft.new) next) (IsFault (text_of F.grammar D.rules) (read ++ byte ∷ []) ⊥) }
{
    match step_with(place.state, byte) {
        Step::Next(state) => Ok(Some(Place { state, ..place })),
        Step::Ends(said) => end_line(draft, place, said),
        Step::Rejects(reject) => Err(fault_at(reject, place.lines)),
    }
}

/// Takes the line that ends here and says so, and answers where the next begins, unless the text has ended.
fn end_line<L: Copy, F: Form<L>, D: Draft<L, F>>(
    draft: &mut D,
    place: Place<F>,
    said: Option<L>,
) -> Result<Option<Place<F>>, TextFault>
    requires said { IsSaid F.grammar F.is_form said }
    requires line { (line : List ℕ) × (line_says F.grammar (D.rules.start (D.progress draft.old)) line ≡ Ok said) }
    requires lines { place.lines + 1 < 2 ^ 63 }
    requires counted { IsCounted D.rules place.lines place.counted }
    ensures placed { IfOk result (λ next. IfSome next (λ after. IsPlaced F.grammar F.is_form (D.rules.start (D.progress draft.new)) after.state)) }
    ensures counted { IfOk result (λ next. IfSome next (λ after. IsCounted D.rules after.lines after.counted × (after.lines ≤ place.lines + 1))) }
    ensures led { (read : List ℕ) → length read < 2 ^ 30 → Stands (text_of F.grammar D.rules) read (D.progress draft.old) place → rest_says F.grammar place.state [] ≡ Ok said
        → MatchResult result (λ next. HasReached (text_of F.grammar D.rules) (read ++ 10 ∷ []) (D.progress draft.new) next) (IsFault (text_of F.grammar D.rules) (read ++ 10 ∷ []) ⊥) }
{
    match take_line(draft, place.lines, place.counted, said)? {
        Some(counted) => Ok(Some(Place {
            state: State::Lead {
                form: draft.start(),
            },
            lines: place.lines + 1,
            counted,
        })),
        None => Ok(None),
    }
}

/// Takes a line that says so, behind so many lines of which so many count, and answers how many count with
/// it, unless the text has ended.
#[inline(always)]
fn take_line<L: Copy, F: Form<L>, D: Draft<L, F>>(
    draft: &mut D,
    lines: u64,
    counted: u64,
    said: Option<L>,
) -> Result<Option<u64>, TextFault>
    requires said { IsSaid F.grammar F.is_form said }
    requires line { (line : List ℕ) × (line_says F.grammar (D.rules.start (D.progress draft.old)) line ≡ Ok said) }
    requires lines { lines + 1 < 2 ^ 63 }
    requires counted { IsCounted D.rules lines counted }
    ensures counted { IfOk result (λ next. IfSome next (λ more. IsCounted D.rules (lines + 1) more)) }
    ensures taken { MatchResult result (HasTaken (text_of F.grammar D.rules) (D.progress draft.old) (D.progress draft.new) counted said) (IsTakeFault (text_of F.grammar D.rules) lines counted said) }
{
    let counted = counted_with(draft, lines, counted, said)?;
    draft.take(said)?;
    if draft.ends(said) {
        return Ok(None);
    }
    Ok(Some(counted))
}

/// How many lines count, with one that says so, behind so many lines of which so many count.
#[inline(always)]
pub fn counted_with<L: Copy, F: Form<L>, D: Draft<L, F>>(
    draft: &D,
    lines: u64,
    counted: u64,
    said: Option<L>,
) -> Result<u64, TextFault>
    requires lines { lines + 1 < 2 ^ 63 }
    requires counted { IsCounted D.rules lines counted }
    ensures { MatchResult result
        (λ more. (D.rules.counts said ≡ true → counted < D.rules.most) × (more ≡ counted + count_of (text_of F.grammar D.rules) said) × IsCounted D.rules (lines + 1) more)
        (IsCountFault (text_of F.grammar D.rules) lines counted said) }
{
    if !draft.counts(said) {
        return Ok(counted);
    }
    if counted == draft.most() {
        return Err(TextFault::TooLarge {
            kind: draft.kind(),
            line: lines + 1,
        });
    }
    Ok(counted + 1)
}
