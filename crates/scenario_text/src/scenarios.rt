//! Scenarios from their text.

ghost use Rattle.std.specs.Prelude.{◌≡◌, ◌⊎◌, ℕ, IfOk};
ghost use Rattle.search_model.specs.Problem.{Problem};
ghost use Rattle.scenario_text.specs.declared.kind.TextKind.TheVariants as kinds;
ghost use Rattle.scenario_text.specs.declared.kind.TextFault.{TextFault as FaultLem};
ghost use Rattle.scenario_text.specs.Faults.{IsFirstFault, IsRest};
ghost use Rattle.scenario_text.specs.Gives.{Answers, Tells, IfFault};
ghost use Rattle.scenario_text.specs.State.{state_of, blank_state};
ghost use Rattle.scenario_text.specs.Scenarios.{IsFront, IsTextOf, ReadsFront, ReadsAlone};

use crate::assembling::assemble;
use crate::draft::Draft;
use crate::kind::{TextFault, TextKind};
use crate::reading::{blank_draft, first_said, read_draft};
use crate::stop::TextStop;
use search_model::Scenario;
use std::alloc::Global;

// The scenario at the front of a text, read into a blank draft.
fn read_front(alloc: Global, draft: &mut Draft, text: &[u8]) -> Result<(Scenario, usize), TextStop>
    requires { state_of draft.old ≡ blank_state }
    ensures { ReadsFront text.now result }
{
    let end = read_draft(alloc, draft, text)?;
    let bytes = text.len() - end.rest.len();
    let scenario = assemble(alloc, draft)?;
    Ok((scenario, bytes))
}

// The scenario of a whole text.
fn read_alone(alloc: Global, draft: &mut Draft, text: &[u8]) -> Result<Scenario, TextStop>
    requires { state_of draft.old ≡ blank_state }
    ensures { ReadsAlone text.now result }
{
    let end = read_draft(alloc, draft, text)?;
    if let Some(line) = first_said(end.rest, end.line + 1) {
        return Err(TextStop::Fault(TextFault {
            line,
            kind: TextKind::Rest,
        }));
    }
    Ok(assemble(alloc, draft)?)
}

/// The scenario whose text stands at the front, and how many bytes that text has, the line feed of its line `end`
/// included where there is one. What follows isn't looked at.
///
/// # Errors
///
/// The first fault by line and kind, never `Rest`; or `NoMemory`.
pub fn read_scenario(alloc: Global, text: &[u8]) -> Result<(Scenario, usize), TextStop>
    ensures reads { ReadsFront text.now result }
    ensures spelled { IfOk result (λ r. IsFront text.now r.0 r.1) }
    ensures exact { (p : Problem) (n : ℕ) → IsFront text.now p n → Answers result (p, n) }
    ensures first { IfFault result (IsFirstFault text.now) }
    ensures faulty { (fault : FaultLem) → IsFirstFault text.now fault → Tells result fault }
    ensures never_rest { IfFault result (λ fault. fault.kind ≡ kinds.Rest → ⊥) }
{
    let mut draft = blank_draft(alloc);
    let read = read_front(alloc, &mut draft, text);
    // (a call, which is proved once for all drafts, and not a drop field by field here)
    drop(draft);
    read
}

/// The scenario of a text behind whose line `end` no line says anything.
///
/// # Errors
///
/// The first fault by line and kind: that of `read_scenario`, or else `Rest` at the first line behind `end` that holds a
/// byte other than blanks; or `NoMemory`.
pub fn read_scenario_alone(alloc: Global, text: &[u8]) -> Result<Scenario, TextStop>
    ensures reads { ReadsAlone text.now result }
    ensures spelled { IfOk result (λ p. IsTextOf p text.now) }
    ensures exact { (p : Problem) → IsTextOf p text.now → Answers result p }
    ensures first { IfFault result (λ fault. IsFirstFault text.now fault ⊎ IsRest text.now fault) }
    ensures faulty { (fault : FaultLem) → IsFirstFault text.now fault → Tells result fault }
    ensures rest { (fault : FaultLem) → IsRest text.now fault → Tells result fault }
    ensures no_other_rest { IfFault result (λ fault. fault.kind ≡ kinds.Rest → IsRest text.now fault) }
{
    let mut draft = blank_draft(alloc);
    let read = read_alone(alloc, &mut draft, text);
    // (a call, which is proved once for all drafts, and not a drop field by field here)
    drop(draft);
    read
}
