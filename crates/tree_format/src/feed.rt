//! A plan or a gap plan from its text in pieces of any length.

ghost use Rattle.std.specs.Prelude.{◌≡◌, ◌<◌, ◌≤◌, ◌+◌, ◌∷◌, [], ◌++◌, ℕ, List, length, take, IfOk, IfErr, All};
ghost use Rattle.search_model.specs.Legal.{IsLegal};
ghost use Rattle.text_rows.specs.Fields.{exact_fields};
ghost use Rattle.text_rows.specs.Lines.{HasNoFeed};
ghost use Rattle.tree_format.specs.Gathering.{gathered};
ghost use Rattle.tree_format.specs.Reading.{line_at, next};
ghost use Rattle.tree_format.specs.FeedSteps.{moved, step_of, IsNumbered};
ghost use Rattle.tree_format.specs.Feeding.{HasRead, IfRead, Tells, IsDecided, IsItem, IsWhole, IsCutOff, IfMore, IfItem, IfFaulty, GoesOn};
ghost use Rattle.tree_format.specs.declared.plan_item.PlanItem.{PlanItem as ItemLem};
ghost use Rattle.tree_format.specs.declared.plan_item.Step.TheVariants as step;
ghost use Rattle.tree_format.specs.declared.kind.PlanFault.{PlanFault as FaultLem};
ghost use Rattle.search_model.specs.Problem.{Problem};
ghost use Rattle.tree_format.specs.declared.plan_line.Family.{Family as FamilyLem};

use crate::adding::pass_line;
use crate::dialects::numbers_in;
use crate::due::{Due, first_due, is_ended};
use crate::gathered_line::GatheredLine;
use crate::kind::{PlanFault, PlanKind};
use crate::lines::read_line;
use crate::pieces::{MOST_FIELDS, first_fields};
use crate::plan_item::{Fed, PlanItem, Step};
use crate::plan_line::{Family, PlanLine, Stage};
use exact_parts::NoMemory;
use search_model::{Path, Scenario, Standing};
use std::alloc::Global;
use std::marker::Model;
use text_rows::cut;

/// What was read of the text of a plan or of a gap plan, which comes in pieces: the head, and the front of the line that is due. Only the call
/// that makes it takes memory, and a line of any length needs no more of it.
#[derive(Drop)]
pub struct PlanFeed {
    number: u64,
    due: Due,
    standing: Standing,
    weight: u128,
    ceiling: u128,
    line: GatheredLine,
}

impl Model for PlanFeed {
    ghost use Rattle.tree_format.specs.FeedSteps.{Stand, IsNumbered};

    ghost Value = { Stand };

    ghost view = { λ f. record {
      number = f.number;
      due = f.due;
      standing = f.standing;
      weight = f.weight;
      ceiling = f.ceiling;
      line = f.line;
    } };

    ghost invariant = { λ f. IsNumbered f.due.stage f.number };
}

// What a line says where it is due, or its first fault.
fn judge_text(line: &[u8], sc: &Scenario, due: &Due) -> Result<PlanLine, PlanKind>
    ensures said { result ≡ line_at sc.now due.now (exact_fields line.now) }
    ensures numbered { IfOk result (λ said.
        (number : ℕ) → IsNumbered due.now.stage number → IsNumbered (next sc.now due.now said).stage (number + 1)) }
{
    sc.recall_sound();
    let mut fields: [&[u8]; MOST_FIELDS] = [&[]; MOST_FIELDS];
    let len = first_fields(line, &mut fields);
    read_line(sc, due, &fields[..len])
}

// What the line that ends with these bytes says where it is due, or its first fault. A line that stands whole in them is read there.
fn judge(
    front: &mut GatheredLine,
    last: &[u8],
    sc: &Scenario,
    due: &Due,
) -> Result<PlanLine, PlanKind>
    ensures said { result ≡ line_at sc.now due.now (exact_fields (gathered front.old last.now).text) }
    ensures numbered { IfOk result (λ said.
        (number : ℕ) → IsNumbered due.now.stage number → IsNumbered (next sc.now due.now said).stage (number + 1)) }
{
    sc.recall_sound();
    if front.is_empty() {
        return judge_text(last, sc, due);
    }
    front.push_run(last);
    judge_text(front.text(), sc, due)
}

impl PlanFeed {
    // Goes on behind a line that says this.
    fn move_on(&mut self, sc: &Scenario, said: PlanLine) -> Step
        requires { IsNumbered (next sc.now self.old.due said).stage (self.old.number + 1) }
        ensures step { result ≡ step_of self.old said }
        ensures stand { All (IsLegal sc.now) self.old.due.expected → self.new ≡ moved sc.now self.old said }
    {
        self.line.clear();
        self.number += 1;
        pass_line(&mut self.due, sc, &said);
        match said {
            PlanLine::Version(_) => Step::More,
            PlanLine::Path(path) => {
                self.standing.path = path;
                Step::More
            }
            PlanLine::Chance(value, weight) => {
                self.standing.value = value;
                self.weight = weight;
                self.ceiling = value;
                Step::More
            }
            PlanLine::Ceiling(ceiling) => {
                self.ceiling = ceiling;
                Step::More
            }
            PlanLine::Count(count) => Step::Item(PlanItem::Head(
                self.standing,
                self.weight,
                self.ceiling,
                numbers_in(self.due.dialect),
                count,
            )),
            PlanLine::Node(node) => Step::Item(PlanItem::Node(node)),
            PlanLine::End => Step::Item(PlanItem::End),
        }
    }

    // Takes the last bytes of the line that is due, and its line feed.
    fn end_line(&mut self, sc: &Scenario, last: &[u8]) -> Step
        requires due { self.old.due.stage ≡ Stage.Ended → ⊥ }
        requires open { HasNoFeed last.now }
        ensures { IfRead sc.now self.old (λ family fed items.
            GoesOn family sc.now (fed ++ (last.now ++ 10 ∷ [])) items result self.new) }
    {
        sc.recall_sound();
        match judge(&mut self.line, last, sc, &self.due) {
            Ok(said) => self.move_on(sc, said),
            Err(kind) => Step::Fault(PlanFault {
                line: self.number,
                kind,
            }),
        }
    }

    // Takes the bytes up to the first line feed, or all of them where none has come.
    fn advance(&mut self, sc: &Scenario, rest: &[u8]) -> Fed
        requires some { 1 ≤ length rest.now }
        ensures used { (1 ≤ result.used) × (result.used ≤ length rest.now) }
        ensures goes { IfRead sc.now self.old (λ family fed items.
            GoesOn family sc.now (fed ++ take result.used rest.now) items result.step self.new) }
        ensures first { IfRead sc.now self.old (λ family fed items.
            (n : ℕ) → n < result.used → Tells family sc.now (fed ++ take n rest.now) items) }
    {
        sc.recall_sound();
        if is_ended(self.due.stage) {
            return Fed {
                used: 1,
                step: Step::Fault(PlanFault {
                    line: self.number,
                    kind: PlanKind::Rest,
                }),
            };
        }
        let Some((last, _)) = cut(rest, b'\n') else {
            self.line.push_run(rest);
            return Fed {
                used: rest.len(),
                step: Step::More,
            };
        };
        Fed {
            used: last.len() + 1,
            step: self.end_line(sc, last),
        }
    }

    /// Nothing was fed of a text of the family. It takes all the memory that the feed will ever need.
    pub fn start(alloc: Global, sc: &Scenario, family: Family) -> Result<PlanFeed, NoMemory>
        ensures { IfOk result (λ feed. HasRead family sc.now [] [] feed) }
    {
        let due = first_due(alloc, family)?;
        let line = GatheredLine::empty(alloc)?;
        Ok(PlanFeed {
            number: 1,
            due,
            standing: Standing {
                path: Path::empty(),
                value: 0,
            },
            weight: 0,
            ceiling: 0,
            line,
        })
    }

    /// Feeds the bytes of a piece up to the first that completes an item or decides a fault, or all of them. It takes no
    /// memory. The scenario is always the same, and after a fault nothing more is fed.
    pub fn feed(&mut self, sc: &Scenario, piece: &[u8]) -> Fed
        requires some { 1 ≤ length piece.now }
        ensures used { (1 ≤ result.used) × (result.used ≤ length piece.now) }
        ensures all { IfMore result.step (result.used ≡ length piece.now) }
        ensures more { IfRead sc.now self.old (λ family fed items.
            IfMore result.step (HasRead family sc.now (fed ++ piece.now) items self.new)) }
        ensures item { IfRead sc.now self.old (λ family fed items.
            IfItem result.step (λ told.
            HasRead family sc.now (fed ++ take result.used piece.now) (items ++ told ∷ []) self.new)) }
        ensures completed { IfRead sc.now self.old (λ family fed items.
            (told : ItemLem) → Tells family sc.now (fed ++ take result.used piece.now) (items ++ told ∷ []) →
            result.step ≡ step.Item told) }
        ensures sound { IfRead sc.now self.old (λ family fed items. IfItem result.step (λ told. IsItem family sc.now told)) }
        ensures fault { IfRead sc.now self.old (λ family fed items.
            IfFaulty result.step (λ fault. IsDecided family sc.now (fed ++ take result.used piece.now) fault)) }
        ensures decided { IfRead sc.now self.old (λ family fed items.
            (fault : FaultLem) → IsDecided family sc.now (fed ++ take result.used piece.now) fault →
            result.step ≡ step.Fault fault) }
        ensures first { IfRead sc.now self.old (λ family fed items.
            (n : ℕ) → n < result.used → Tells family sc.now (fed ++ take n piece.now) items) }
    {
        let mut done = 0;
        while done < piece.len() {
            let Fed { used, step } = self.advance(sc, &piece[done..]);
            done += used;
            match step {
                Step::More => {}
                Step::Item(item) => {
                    return Fed {
                        used: done,
                        step: Step::Item(item),
                    };
                }
                Step::Fault(fault) => {
                    return Fed {
                        used: done,
                        step: Step::Fault(fault),
                    };
                }
            }
        }
        Fed {
            used: piece.len(),
            step: Step::More,
        }
    }

    /// Whether the bytes that were fed are a text of its family, from its first byte to its last. It takes no memory.
    ///
    /// # Errors
    ///
    /// `EarlyEnd` in the line that is due: the bytes end before its line feed.
    pub fn finish(&self) -> Result<(), PlanFault>
        ensures whole { (family : FamilyLem) (p : Problem) (fed : List ℕ) (items : List ItemLem) →
            HasRead family p fed items self.now → IfOk result (λ _. IsWhole family p fed items) }
        ensures early { (family : FamilyLem) (p : Problem) (fed : List ℕ) (items : List ItemLem) →
            HasRead family p fed items self.now → IfErr result (λ fault. IsCutOff family p fed fault) }
    {
        if is_ended(self.due.stage) {
            Ok(())
        } else {
            Err(PlanFault {
                line: self.number,
                kind: PlanKind::EarlyEnd,
            })
        }
    }
}
