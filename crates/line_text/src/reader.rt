ghost use Rattle.std.specs.Prelude.{◌≡◌, ℕ, ◌+◌, ◌<◌, ◌≤◌, ◌^◌, List, ◌++◌, ◌∷◌, [], Some, None, IfOk, IfSome, MatchResult, length, vec_len};
ghost use Rattle.line_text.specs.Readings.{Reading, IsExcuse, IsRefusal, Stands, HasReached, IsFault, IsCounted};
ghost use Rattle.line_text.specs.States.{IsPlaced};
ghost use Rattle.line_text.specs.Texts.{text_of, HasText, IsRefused};
ghost use Rattle.line_text.specs.declared.faults.TextFault.{TextFault};
ghost use Rattle.shared_io.specs.Counts.{Rose};

use crate::bytes::{Place, counted_with, take_bytes};
use crate::drafts::Draft;
use crate::faults::TextFault;
use crate::forms::Form;
use crate::states::{State, said_by};
use shared_io::{Source, TooKind};
use std::alloc::{AllocError, Global};

/// The most bytes of a text.
const MOST_BYTES: usize = 1 << 30;

/// How many bytes are asked for at once.
const PIECE: usize = 1 << 16;

/// Reads a text from the source into the draft, up to the end of the text.
///
/// A refusal is answered as soon as its byte has come, and nothing is asked for behind that byte or
/// behind the end of the text; what came in the same piece is lost. Of several refusals the first in
/// the input is answered, and at one byte the number of bytes comes first. After a fault the draft has
/// what some lines made of it.
pub fn read_text<S: Source, L: Copy, F: Form<L>, D: Draft<L, F>>(
    alloc: Global,
    source: &mut S,
    draft: &mut D,
) -> Result<(), TextFault>
    requires { D.progress draft.old ≡ D.rules.opening }
    // What the answer says of the bytes that were read.
    ensures reading { Reading (text_of F.grammar D.rules) (S.left source.old) (S.left source.new) (S.faults source.old) (S.faults source.new) result (D.progress draft.new) }

    // Where the source tells its bytes, the answer is that of the whole input.
    ensures accepted { (input : List ℕ) (made : D.Progress) → S.left source.old ≡ Some input → HasText (text_of F.grammar D.rules) input (Unit {0}) made
        → MatchResult result (λ _. D.progress draft.new ≡ made) (IsExcuse (Rose (S.faults source.old) (S.faults source.new))) }
    ensures refused { (input : List ℕ) (refusal : TextFault) → S.left source.old ≡ Some input → IsRefused (text_of F.grammar D.rules) input (Unit {0}) refusal
        → MatchResult result (λ _. ⊥) (IsRefusal refusal (Rose (S.faults source.old) (S.faults source.new))) }
{
    read_pieces(alloc, source, draft)
}

/// Reads piece after piece.
fn read_pieces<S: Source, L: Copy, F: Form<L>, D: Draft<L, F>>(
    alloc: Global,
    source: &mut S,
    draft: &mut D,
) -> Result<(), TextFault>
    requires { D.progress draft.old ≡ D.rules.opening }
    ensures { Reading (text_of F.grammar D.rules) (S.left source.old) (S.left source.new) (S.faults source.old) (S.faults source.new) result (D.progress draft.new) }
{
    let mut buffer = zeros(alloc, PIECE)?;
    let mut place = Place {
        state: State::Lead {
            form: draft.start(),
        },
        lines: 0,
        counted: 0,
    };
    let mut total = 0;
    loop {
        // Behind the last byte that a text can have one more is asked for: it may end the text.
        let room = MOST_BYTES - total;
        let piece = &mut buffer[..PIECE.min(room + 1)];
        let count = source.read(piece)?;
        if count == 0 {
            return at_end(draft, place);
        }
        match take_piece(draft, place, &piece[..count], room)? {
            Some(next) => place = next,
            None => return Ok(()),
        }
        total += count;
    }
}

/// So many zeros.
fn zeros(alloc: Global, count: usize) -> Result<Vec<u8>, AllocError>
    ensures { IfOk result (λ bytes. vec_len bytes ≡ count) }
{
    vec![in alloc; 0u8; count]
}

/// Takes the bytes of a piece, where so many may still come, and one more that is refused unless it ends
/// the text.
fn take_piece<L: Copy, F: Form<L>, D: Draft<L, F>>(
    draft: &mut D,
    place: Place<F>,
    piece: &[u8],
    room: usize,
) -> Result<Option<Place<F>>, TextFault>
    requires placed { IsPlaced F.grammar F.is_form (D.rules.start (D.progress draft.old)) place.state }
    requires lines { place.lines + length piece.now < 2 ^ 63 }
    requires counted { IsCounted D.rules place.lines place.counted }
    requires room { length piece.now ≤ room + 1 }
    ensures placed { IfOk result (λ next. IfSome next (λ after. IsPlaced F.grammar F.is_form (D.rules.start (D.progress draft.new)) after.state)) }
    ensures counted { IfOk result (λ next. IfSome next (λ after. IsCounted D.rules after.lines after.counted × (after.lines ≤ place.lines + length piece.now))) }
    ensures room { IfOk result (λ next. IfSome next (λ after. length piece.now ≤ room)) }
    ensures led { (read : List ℕ) → length read + room ≡ 2 ^ 30 → Stands (text_of F.grammar D.rules) read (D.progress draft.old) place
        → MatchResult result (λ next. HasReached (text_of F.grammar D.rules) (read ++ piece.now) (D.progress draft.new) next) (IsFault (text_of F.grammar D.rules) (read ++ piece.now) ⊥) }
{
    let Some((last, within)) = piece.split_last() else {
        return Ok(Some(place));
    };
    if within.len() < room {
        return take_bytes(draft, place, piece);
    }
    match take_bytes(draft, place, within)? {
        Some(place) => past_limit(draft, place, *last),
        None => Ok(None),
    }
}

/// Takes the byte behind as many as there may be.
fn past_limit<L: Copy, F: Form<L>, D: Draft<L, F>>(
    draft: &mut D,
    place: Place<F>,
    byte: u8,
) -> Result<Option<Place<F>>, TextFault>
    requires placed { IsPlaced F.grammar F.is_form (D.rules.start (D.progress draft.old)) place.state }
    requires lines { place.lines + 1 < 2 ^ 63 }
    requires counted { IsCounted D.rules place.lines place.counted }
    ensures end { IfOk result (λ next. next ≡ None) }
    ensures led { (read : List ℕ) → length read ≡ 2 ^ 30 → Stands (text_of F.grammar D.rules) read (D.progress draft.old) place
        → MatchResult result (λ next. HasText (text_of F.grammar D.rules) (read ++ byte ∷ []) ⊥ (D.progress draft.new)) (IsFault (text_of F.grammar D.rules) (read ++ byte ∷ []) ⊥) }
{
    let limit = TextFault::TooLarge {
        kind: TooKind::Bytes,
        line: place.lines + 1,
    };
    if byte != b'\n' {
        return Err(limit);
    }
    let Ok(said) = said_by(place.state) else {
        return Err(limit);
    };
    if !draft.ends(said) {
        return Err(limit);
    }
    if counted_with(draft, place.lines, place.counted, said).is_err() {
        return Err(limit);
    }
    draft.take(said)?;
    Ok(None)
}

/// The answer at the end of the input.
fn at_end<L: Copy, F: Form<L>, D: Draft<L, F>>(
    draft: &mut D,
    place: Place<F>,
) -> Result<(), TextFault>
    requires placed { IsPlaced F.grammar F.is_form (D.rules.start (D.progress draft.old)) place.state }
    requires lines { place.lines + 1 < 2 ^ 63 }
    requires counted { IsCounted D.rules place.lines place.counted }
    ensures { (read : List ℕ) → Stands (text_of F.grammar D.rules) read (D.progress draft.old) place
        → MatchResult result (λ _. HasText (text_of F.grammar D.rules) read (Unit {0}) (D.progress draft.new)) (IsFault (text_of F.grammar D.rules) read (Unit {0})) }
{
    let bad = TextFault::BadLine {
        line: place.lines + 1,
    };
    let Ok(said) = said_by(place.state) else {
        return Err(bad);
    };
    if !draft.may_be_last(said) {
        return Err(bad);
    }
    counted_with(draft, place.lines, place.counted, said)?;
    draft.take(said)?;
    Ok(())
}
