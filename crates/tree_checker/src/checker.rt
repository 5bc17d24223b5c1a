//! The checker.

ghost use Rattle.std.specs.Prelude.{ℕ, ◌≡◌, ◌+◌, ◌<◌, ◌≤◌, ◌^◌, ◌⊎◌, ◌∷◌, ◌++◌, [], List, length, IfOk, IfNone, IsSome, reverse, vec_len, vec_capacity, All};
ghost use Rattle.search_model.specs.Legal.{IsLegal};
ghost use Rattle.search_model.specs.Bounds.{greatest};
ghost use Rattle.bound_tree.specs.declared.node.Kind.{Kind};
ghost use Rattle.bound_tree.specs.declared.node.TreeNode.{TreeNode};
ghost use Rattle.bound_tree.specs.declared.gap.GapNode.{GapNode};
ghost use Rattle.bound_tree.specs.Accepts.{expected_by};
ghost use Rattle.bound_tree.specs.Close.{IsExact};
ghost use Rattle.bound_tree.specs.Gaps.{shape_of_kind, open_number, closed_node};
ghost use Rattle.tree_checker.specs.Reasons.{at_line, next_reason, expected_past, ceiling_reason, verdict_of};
ghost use Rattle.tree_checker.specs.GapReasons.{gap_verdict_of};
ghost use Rattle.bound_tree.specs.Room.{HasRoom};
ghost use Rattle.tree_checker.specs.Tables.{AreMadeFor};

use crate::gap_verdict::{GapRejectAt, GapVerdict, GapWhy, plain_verdict};
use crate::reasons::{head_reason, node_reason};
use crate::tables::BoundTables;
use crate::verdict::{Verdict, Why};
use bound_tree::{GapKind, GapNode, Numbers, TreeNode, pop_prefix, push_expected, push_prefix};
use exact_parts::NoMemory;
use search_model::{Path, Scenario, Standing};
use std::alloc::Global;
use std::marker::Model;

// Room for the most prefixes that can be expected at once.
const ROOM: usize = 2_048;

/// Checks a plan or gap plan that it is given piece by piece: first its head, by `begin`, then each node, by `take`, then its
/// end, by `verdict`. A plan is checked as a gap plan in which no node waits and the ceiling is the value; `head`, `node` and
/// `finish` are these calls for a plan and its records, `gap_head`, `open_node` and `finish_gap` for a gap plan. Its lines are
/// those of the text: 2 and 3 for the head, 5 for the first record of a plan, 6 for the first node of a gap plan. After it was
/// made it takes no memory. It is used with the scenario that it was made for.
#[derive(Drop)]
pub struct Checker {
    standing: Standing,
    numbers: Numbers,
    reason: Option<GapRejectAt>,
    expected: Vec<Path>,
    line: u64,
    most: u128,
    tables: BoundTables,
}

impl Model for Checker {
    ghost use Rattle.std.specs.Prelude.{◌≤◌, reverse, vec_capacity};
    ghost use Rattle.tree_checker.specs.Progress.{Progress};
    ghost use Rattle.bound_tree.specs.Room.{HasRoom};

    ghost Value = { Progress };

    ghost view = { λ c. record {
      standing = c.standing;
      numbers = c.numbers;
      reason = c.reason;
      expected = reverse c.expected.items;
      line = c.line;
      most = c.most;
      tables = c.tables;
    } };

    ghost invariant = { λ c. (2048 ≤ vec_capacity c.expected) × HasRoom (reverse c.expected.items) };
}

// Puts on the stack what a node makes expected.
fn push_opened(stack: &mut Vec<Path>, sc: &Scenario, prefix: &Path, kind: &GapKind)
    requires legal { IsLegal sc.now prefix.now }
    requires short { shape_of_kind kind.now ≡ Kind.Branch → length prefix.now < sc.now.horizon }
    requires room { shape_of_kind kind.now ≡ Kind.Branch → vec_len stack.old + 64 ≤ vec_capacity stack.old }
    ensures items { reverse stack.new.items ≡
        expected_by sc.now prefix.now (shape_of_kind kind.now) ++ reverse stack.old.items }
    ensures capacity { vec_capacity stack.old ≤ vec_capacity stack.new }
{
    match kind {
        GapKind::Closed(kind) => push_expected(stack, sc, prefix, kind),
        GapKind::Waiting(_) => {}
    }
}

// Takes the node of a line where the prefixes on the stack are expected: the reason against it, or nothing, and then its
// children are expected.
fn take_node(
    numbers: Numbers,
    sc: &Scenario,
    standing: &Standing,
    line: u64,
    expected: &mut Vec<Path>,
    tables: &mut BoundTables,
    node: &GapNode,
) -> Option<GapRejectAt>
    requires legal { All (IsLegal sc.now) (reverse expected.old.items) }
    requires exact { (expected.old.items ≡ []) ⊎ IsExact sc.now standing.now }
    requires room { HasRoom (reverse expected.old.items) }
    requires capacity { 2048 ≤ vec_capacity expected.old }
    requires made { AreMadeFor sc.now tables.old }
    ensures reason { result ≡ at_line line (next_reason numbers sc.now standing.now (reverse expected.old.items) node.now) }
    ensures past { IfNone result
        (reverse expected.new.items ≡ expected_past sc.now (reverse expected.old.items) node.now) }
    ensures legal { All (IsLegal sc.now) (reverse expected.new.items) }
    ensures exact { IfNone result (IsExact sc.now standing.now) }
    ensures room { HasRoom (reverse expected.new.items) }
    ensures capacity { 2048 ≤ vec_capacity expected.new }
    ensures made { AreMadeFor sc.now tables.new }
{
    sc.recall_sound();
    let Some(prefix) = pop_prefix(expected) else {
        return Some(GapRejectAt {
            line,
            why: GapWhy::Plain(Why::NotChild),
        });
    };
    match node_reason(numbers, sc, tables, standing, &prefix, node) {
        Some(why) => Some(GapRejectAt { line, why }),
        None => {
            push_opened(expected, sc, &prefix, &node.kind);
            None
        }
    }
}

// The greater of a number and that of a node, where it has one.
fn most_with(most: u128, kind: &GapKind) -> u128
    ensures { (numbers : List ℕ) → greatest (result ∷ numbers) ≡ greatest (most ∷ open_number kind.now ++ numbers) }
{
    match kind {
        GapKind::Closed(_) => most,
        GapKind::Waiting(number) => most.max(*number),
    }
}

// The verdict, where there is no other reason and this is the greatest of the value and the numbers of waiting nodes.
#[tactic(auto, using(crate::proofs::Steps::ceiling_met, crate::proofs::Steps::ceiling_missed))]
fn ceiling_verdict(most: u128, ceiling: u128) -> GapVerdict
    ensures { result ≡ gap_verdict_of (ceiling_reason ceiling (most ∷ [])) }
{
    if ceiling == most {
        GapVerdict::Accepted
    } else {
        GapVerdict::Rejected(GapRejectAt {
            line: 4,
            why: GapWhy::CeilingWrong,
        })
    }
}

// A record as a closed node.
fn closed(node: &TreeNode) -> GapNode
    ensures { result ≡ closed_node node.now }
{
    GapNode {
        prefix: node.prefix,
        kind: GapKind::Closed(node.kind),
    }
}

impl Checker {
    ghost use Rattle.tree_checker.specs.Progress.{at_start, begun_at, after_head, after_gap_head, reason_if, reason_at_end, gap_reason_if, gap_reason_at_end, IsUnderWay, IsMadeFor};

    /// A checker for the plans of a scenario, with all the memory that it will need.
    pub fn tables(alloc: Global, sc: &Scenario) -> Result<Checker, NoMemory>
        ensures started { IfOk result (λ c. c ≡ at_start c.tables) }
        ensures under_way { IfOk result (IsUnderWay sc.now) }
        ensures made { IfOk result (IsMadeFor sc.now) }
    {
        Ok(Checker {
            standing: Standing {
                path: Path::empty(),
                value: 0,
            },
            numbers: Numbers::Means,
            reason: None,
            expected: Vec::with_capacity(alloc, ROOM)?,
            line: 5,
            most: 0,
            tables: BoundTables::start(alloc, sc)?,
        })
    }

    /// Begins a plan or gap plan whose first node stands at this line: which bounds the numbers of its waiting nodes are, its
    /// path with its value, and the weight that the value is out of.
    pub fn begin(
        &mut self,
        sc: &Scenario,
        line: u64,
        numbers: Numbers,
        standing: &Standing,
        weight: u128,
    )
        requires { IsMadeFor sc.now self.old }
        ensures begun { self.new ≡ begun_at line numbers sc.now self.new.tables standing.now weight }
        ensures under_way { IsUnderWay sc.now self.new }
        ensures made { IsMadeFor sc.now self.new }
    {
        self.standing = *standing;
        self.numbers = numbers;
        self.reason = head_reason(sc, &mut self.tables, standing, weight);
        self.most = standing.value;
        self.expected.clear();
        push_prefix(&mut self.expected, Path::empty());
        self.line = line;
    }

    /// Takes the next node.
    pub fn take(&mut self, sc: &Scenario, node: &GapNode)
        requires under_way { IsUnderWay sc.now self.old }
        requires line { self.old.line < 2 ^ 63 }
        requires made { IsMadeFor sc.now self.old }
        ensures reason { (ceiling : ℕ) (nodes : List GapNode) →
            gap_reason_if sc.now self.new ceiling nodes ≡ gap_reason_if sc.now self.old ceiling (node.now ∷ nodes) }
        ensures standing { self.new.standing ≡ self.old.standing }
        ensures under_way { IsUnderWay sc.now self.new }
        ensures line { self.new.line ≤ self.old.line + 1 }
        ensures made { IsMadeFor sc.now self.new }
        ensures settled { IsSome self.old.reason → self.new ≡ self.old }
    {
        if self.reason.is_none() {
            self.reason = take_node(
                self.numbers,
                sc,
                &self.standing,
                self.line,
                &mut self.expected,
                &mut self.tables,
                node,
            );
            self.most = most_with(self.most, &node.kind);
            self.line += 1;
        }
    }

    /// The verdict, where the text ends after the nodes so far, and its head has this ceiling.
    pub fn verdict(&self, ceiling: u128) -> GapVerdict
        ensures { result ≡ gap_verdict_of (gap_reason_at_end self.now ceiling) }
    {
        match self.reason {
            Some(at) => GapVerdict::Rejected(at),
            None if self.expected.is_empty() => ceiling_verdict(self.most, ceiling),
            None => GapVerdict::Rejected(GapRejectAt {
                line: self.line,
                why: GapWhy::Plain(Why::MissingChild),
            }),
        }
    }

    /// Begins a plan: its path with its value, and the weight that the value is out of.
    pub fn head(&mut self, sc: &Scenario, standing: &Standing, weight: u128)
        requires { IsMadeFor sc.now self.old }
        ensures begun { self.new ≡ after_head sc.now self.new.tables standing.now weight }
        ensures under_way { IsUnderWay sc.now self.new }
        ensures made { IsMadeFor sc.now self.new }
    {
        self.begin(sc, 5, Numbers::Means, standing, weight);
    }

    /// Takes the next record of a plan.
    pub fn node(&mut self, sc: &Scenario, node: &TreeNode)
        requires under_way { IsUnderWay sc.now self.old }
        requires line { self.old.line < 2 ^ 63 }
        requires made { IsMadeFor sc.now self.old }
        ensures reason { (rs : List TreeNode) →
            reason_if sc.now self.new rs ≡ reason_if sc.now self.old (node.now ∷ rs) }
        ensures under_way { IsUnderWay sc.now self.new }
        ensures line { self.new.line ≤ self.old.line + 1 }
        ensures made { IsMadeFor sc.now self.new }
        ensures settled { IsSome self.old.reason → self.new ≡ self.old }
    {
        self.take(sc, &closed(node));
    }

    /// The verdict on a plan, where it ends after the records so far.
    pub fn finish(&self) -> Verdict
        ensures { result ≡ verdict_of (reason_at_end self.now) }
    {
        plain_verdict(self.verdict(self.standing.value))
    }

    /// Begins a gap plan: which bounds its numbers are, its path with its value, and the weight that the value is out of.
    pub fn gap_head(&mut self, sc: &Scenario, numbers: Numbers, standing: &Standing, weight: u128)
        requires { IsMadeFor sc.now self.old }
        ensures begun { self.new ≡ after_gap_head numbers sc.now self.new.tables standing.now weight }
        ensures under_way { IsUnderWay sc.now self.new }
        ensures made { IsMadeFor sc.now self.new }
    {
        self.begin(sc, 6, numbers, standing, weight);
    }

    /// Takes the next node of a gap plan.
    pub fn open_node(&mut self, sc: &Scenario, node: &GapNode)
        requires under_way { IsUnderWay sc.now self.old }
        requires line { self.old.line < 2 ^ 63 }
        requires made { IsMadeFor sc.now self.old }
        ensures reason { (ceiling : ℕ) (nodes : List GapNode) →
            gap_reason_if sc.now self.new ceiling nodes ≡ gap_reason_if sc.now self.old ceiling (node.now ∷ nodes) }
        ensures under_way { IsUnderWay sc.now self.new }
        ensures line { self.new.line ≤ self.old.line + 1 }
        ensures made { IsMadeFor sc.now self.new }
        ensures settled { IsSome self.old.reason → self.new ≡ self.old }
    {
        self.take(sc, node);
    }

    /// The verdict on a gap plan, where it ends after the nodes so far, and its head has this ceiling.
    pub fn finish_gap(&self, ceiling: u128) -> GapVerdict
        ensures { result ≡ gap_verdict_of (gap_reason_at_end self.now ceiling) }
    {
        self.verdict(ceiling)
    }
}
