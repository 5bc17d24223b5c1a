//! The judge of a plan or of a gap plan whose text comes in pieces.

ghost use Rattle.std.specs.Prelude.{◌≡◌, ◌<◌, ◌≤◌, ◌^◌, ◌++◌, ◌∷◌, [], ℕ, List, length, take, IsTrue, IfOk, IfErr, OnOk};
ghost use Rattle.tree_format.specs.Feeding.{HasRead, IsDecided};
ghost use Rattle.tree_format.specs.declared.plan_item.PlanItem.{PlanItem as ItemLem};
ghost use Rattle.tree_format.specs.Gives.{IfFault};
ghost use Rattle.tree_checker.specs.Progress.{IsUnderWay, IsMadeFor};
ghost use Rattle.plan_command.specs.Plans.{HasFaultIn};
ghost use Rattle.plan_command.specs.declared.judge.Task.{Task as TaskLem};
ghost use Rattle.plan_command.specs.Intakes.{records_kept, kept_by, nodes_in, IsNextItem, HasHeard, HasTakenText, HasTakenRest, KeepsWhereShort, TellsRest};

use crate::hearing::{Head, hear_head, hear_node};
use crate::spaces::skip_spaces;
use bound_tree::{GapNode, Numbers, TreeNode};
use exact_parts::NoMemory;
use search_model::{Path, Scenario, Standing};
use std::alloc::Global;
use text_rows::rest_from;
use tree_checker::{Checker, GapVerdict};
use tree_format::{Family, Fed, PlanFault, PlanFeed, PlanItem, PlanStop, Step, record_of};

/// What is asked of a judge: to read a text of this family, and to keep its records or not.
#[derive(Clone, Copy)]
pub struct Task {
    pub family: Family,
    pub keeps: bool,
}

/// What was read of the text behind a scenario, of a plan or of a gap plan, and the checker of what it told. The text is
/// never kept, its records only where the task says so: else only the call that makes the judge takes memory.
#[derive(Drop)]
pub struct Judge {
    pub sc: Scenario,
    pub task: Task,
    /// The head, once it was read.
    pub head: Head,
    /// The records so far, where they are kept.
    pub records: Vec<TreeNode>,
    /// Whether a byte came that is neither a blank nor a line feed.
    begun: bool,
    feed: PlanFeed,
    checker: Checker,
}

// Adds a record to those that are kept, where they are.
fn keep(records: &mut Vec<TreeNode>, keeps: bool, node: &GapNode) -> Result<(), NoMemory>
    ensures kept { OnOk result (records.new.items ≡ records.old.items ++ records_kept keeps (node.now ∷ [])) }
    ensures free { IfErr result (λ refused. IsTrue keeps) }
{
    if keeps {
        let record = record_of(node);
        records.push(TreeNode {
            prefix: record.prefix,
            kind: record.kind,
        })?;
    }
    Ok(())
}

impl Judge {
    /// The judge for this task and this scenario. Nothing was read.
    pub fn start(alloc: Global, sc: Scenario, task: Task) -> Result<Judge, NoMemory>
        ensures scenario { IfOk result (λ judge. judge.sc ≡ sc) }
        ensures nothing { IfOk result (λ judge. HasTakenRest task [] judge) }
    {
        match PlanFeed::start(alloc, &sc, task.family) {
            Ok(feed) => Judge::with_feed(alloc, sc, task, feed),
            Err(NoMemory) => {
                // (a call, which is proved once for all scenarios, and not a drop field by field here)
                drop(sc);
                Err(NoMemory)
            }
        }
    }

    // The judge with a feed that has read nothing.
    fn with_feed(alloc: Global, sc: Scenario, task: Task, feed: PlanFeed) -> Result<Judge, NoMemory>
        requires { HasRead task.family sc [] [] feed }
        ensures scenario { IfOk result (λ judge. judge.sc ≡ sc) }
        ensures nothing { IfOk result (λ judge. HasTakenRest task [] judge) }
    {
        match Checker::tables(alloc, &sc) {
            Ok(checker) => Ok(Judge {
                sc,
                task,
                head: Head {
                    standing: Standing {
                        path: Path::empty(),
                        value: 0,
                    },
                    weight: 0,
                    ceiling: 0,
                    numbers: Numbers::Means,
                },
                records: Vec::new(alloc),
                begun: false,
                feed,
                checker,
            }),
            Err(NoMemory) => {
                // (calls, as above)
                drop(sc);
                drop(feed);
                Err(NoMemory)
            }
        }
    }

    // Hears what a line of the text told.
    fn hear(&mut self, item: PlanItem) -> Result<(), NoMemory>
        requires under_way { IsUnderWay self.old.sc self.old.checker }
        requires line { self.old.checker.line < 2 ^ 63 }
        requires made { IsMadeFor self.old.sc self.old.checker }
        ensures scenario { self.new.sc ≡ self.old.sc }
        ensures task { self.new.task ≡ self.old.task }
        ensures feed { self.new.feed ≡ self.old.feed }
        ensures begun { self.new.begun ≡ self.old.begun }
        ensures heard { OnOk result ((told : List ItemLem) → IsNextItem told item →
            HasHeard self.old.task.family self.old.sc told self.old.head self.old.checker
            → HasHeard self.old.task.family self.old.sc (told ++ item ∷ []) self.new.head self.new.checker) }
        ensures kept { OnOk result (self.new.records.items ≡
            self.old.records.items ++ records_kept self.old.task.keeps (nodes_in (item ∷ []))) }
        ensures free { IfErr result (λ refused. IsTrue self.old.task.keeps) }
    {
        match item {
            PlanItem::Head(standing, weight, ceiling, numbers, _) => {
                self.head = Head {
                    standing,
                    weight,
                    ceiling,
                    numbers,
                };
                hear_head(&mut self.checker, &self.sc, self.task.family, &self.head);
                Ok(())
            }
            PlanItem::Node(node) => {
                keep(&mut self.records, self.task.keeps, &node)?;
                hear_node(&mut self.checker, &self.sc, &node);
                Ok(())
            }
            PlanItem::End => Ok(()),
        }
    }

    // Takes the next bytes of the text up to the first that completes an item: how many.
    fn take_some(&mut self, text: &[u8]) -> Result<usize, PlanStop>
        requires some { 1 ≤ length text.now }
        requires begun { (task : TaskLem) × (before : List ℕ) × HasTakenText task before self.old }
        ensures scenario { self.new.sc ≡ self.old.sc }
        ensures task { self.new.task ≡ self.old.task }
        ensures begun { self.new.begun ≡ self.old.begun }
        ensures used { IfOk result (λ used. (1 ≤ used) × (used ≤ length text.now)) }
        ensures taken { IfOk result (λ used.
            (task : TaskLem) (before : List ℕ) → HasTakenText task before self.old →
            HasTakenText task (before ++ take used text.now) self.new) }
        ensures fault { IfFault result (λ fault.
            (task : TaskLem) (before : List ℕ) → HasTakenText task before self.old →
            IsDecided task.family self.old.sc (before ++ text.now) fault) }
        ensures free { IfErr result (λ stop. KeepsWhereShort self.old.task.keeps stop) }
    {
        self.sc.recall_sound();
        let Fed { used, step } = self.feed.feed(&self.sc, text);
        match step {
            Step::More => Ok(used),
            Step::Item(item) => match self.hear(item) {
                Ok(()) => Ok(used),
                Err(NoMemory) => Err(PlanStop::NoMemory),
            },
            Step::Fault(fault) => Err(PlanStop::Fault(fault)),
        }
    }

    // Takes the next bytes of the text.
    fn take_text(&mut self, text: &[u8]) -> Result<(), PlanStop>
        requires { (task : TaskLem) × (before : List ℕ) × HasTakenText task before self.old }
        ensures scenario { self.new.sc ≡ self.old.sc }
        ensures begun { self.new.begun ≡ self.old.begun }
        ensures taken { OnOk result ((task : TaskLem) (before : List ℕ) → HasTakenText task before self.old →
            HasTakenText task (before ++ text.now) self.new) }
        ensures fault { IfFault result (λ fault.
            (task : TaskLem) (before : List ℕ) → HasTakenText task before self.old →
            IsDecided task.family self.old.sc (before ++ text.now) fault) }
        ensures free { IfErr result (λ stop. KeepsWhereShort self.old.task.keeps stop) }
    {
        let mut done = 0;
        while done < text.len() {
            match self.take_some(rest_from(text, done)) {
                Ok(used) => done += used,
                Err(stop) => return Err(stop),
            }
        }
        Ok(())
    }

    /// Takes the next bytes of what follows the scenario. It takes memory for the records that are kept, and no other.
    ///
    /// # Errors
    ///
    /// The first fault of the text, which no more bytes mend; or, where records are kept, `NoMemory`.
    pub fn take(&mut self, piece: &[u8]) -> Result<(), PlanStop>
        requires { (task : TaskLem) × (before : List ℕ) × HasTakenRest task before self.old }
        ensures scenario { self.new.sc ≡ self.old.sc }
        ensures taken { OnOk result ((task : TaskLem) (before : List ℕ) → HasTakenRest task before self.old →
            HasTakenRest task (before ++ piece.now) self.new) }
        ensures fault { IfFault result (λ fault. (task : TaskLem) (before more : List ℕ)
            → HasTakenRest task before self.old
            → HasFaultIn task.family self.old.sc (before ++ piece.now ++ more) fault) }
        ensures free { IfErr result (λ stop. KeepsWhereShort self.old.task.keeps stop) }
    {
        if self.begun {
            return self.take_text(piece);
        }
        let text = skip_spaces(piece);
        if text.is_empty() {
            return Ok(());
        }
        self.begun = true;
        self.take_text(text)
    }

    /// The verdict, where the text ends here.
    ///
    /// # Errors
    ///
    /// The bytes end before the plan or gap plan.
    pub fn finish(&self) -> Result<GapVerdict, PlanFault>
        ensures { (task : TaskLem) (rest : List ℕ) → HasTakenRest task rest self.now
            → TellsRest task self.now.sc (kept_by self.now) rest result }
    {
        self.sc.recall_sound();
        match self.feed.finish() {
            Ok(()) => Ok(self.checker.verdict(self.head.ceiling)),
            Err(fault) => Err(fault),
        }
    }
}
