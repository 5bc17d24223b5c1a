//! Texts of gap plans that are read and print back, and such texts that are cut off.

ghost use Rattle.std.specs.Prelude.{◌∷◌, [], map};
ghost use Rattle.bound_tree.specs.Places.{AreInPlace};
ghost use Rattle.bound_tree.specs.Gaps.{shape_of};
ghost use Rattle.tree_format.specs.PlanText.{IsPrintableGap};

use crate::plan_feeds::tells_gap_as_read;
use crate::plan_scenarios::asked;
use crate::plan_texts::{TWO_CELLS_2, has_fault, line_behind};
use bound_tree::GapPlan;
use search_model::Scenario;
use std::alloc::Global;
use std::test::Fail;
use tree_format::{PlanFault, PlanStop, plan_kind_name, print_gap, read_gap};

// Two cells, where the search stopped behind the empty prefix, in each version, and in one that there isn't.
const TWO_WAIT: &str = "gap 1\npath a a\nchance 12 16\nceiling 12\nnodes 3\nB\nO 12\nO 12\nend\n";

const TWO_WAIT_2: &str = "gap 2\npath a a\nchance 12 16\nceiling 12\nnodes 3\nB\nO 12\nO 12\nend\n";

const TWO_WAIT_3: &str = "gap 3\npath a a\nchance 12 16\nceiling 12\nnodes 3\nB\nO 12\nO 12\nend\n";

// Texts, each below its scenario: the ones that a search writes, the same with other numbers, which are texts all the same,
// and one with all letters and the widest numbers.
const GAPS: &str = "\
== ab 2
gap 1
path a a
chance 12 16
ceiling 12
nodes 3
B
O 12
O 12
end
== four cells
gap 1
path a a
chance 3 9
ceiling 6
nodes 3
B
O 3
O 6
end
== four cells
gap 1
path a a
chance 3 9
ceiling 5
nodes 3
B
O 3
O 6
end
== four cells
gap 1
path a a
chance 3 9
ceiling 6
nodes 3
B
O 3
O 5
end
== ab 2
gap 1
path b a
chance 0 340282366920938463463374607431768211455
ceiling 340282366920938463463374607431768211455
nodes 7
B
B
O 340282366920938463463374607431768211455
W 12
B
E 6
T 12 0 1
end
== ab 2
gap 1
path a
chance 12 16
ceiling 12
nodes 1
O 12
end
== ab 2
gap 1
path a a
chance 12 16
ceiling 12
nodes 1
M 12
end
== ab 2
gap 2
path a a
chance 12 16
ceiling 12
nodes 3
B
O 12
O 12
end
== ab 2
gap 2
path b a
chance 0 340282366920938463463374607431768211455
ceiling 340282366920938463463374607431768211455
nodes 7
B
B
O 340282366920938463463374607431768211455
W 12
B
E 6
T 12 0 1
end
== row 4
gap 2
path c c c c
chance 9 16
ceiling 12
nodes 7
B
O 4
B
X 6 2
E 5
O 12
X 0 0
end
";

// With an exchange, which no text of version 1 has.
const ONE_EXCHANGE: &str =
    "gap 2\npath a a\nchance 12 16\nceiling 12\nnodes 3\nB\nX 6 1\nO 12\nend\n";

const ONE_EXCHANGE_1: &str =
    "gap 1\npath a a\nchance 12 16\nceiling 12\nnodes 3\nB\nX 6 1\nO 12\nend\n";

// Whether a gap plan prints to these bytes, behind what stood there.
fn prints_to(alloc: Global, sc: &Scenario, plan: &GapPlan, text: &str) -> Result<bool, Fail>
    requires printable { IsPrintableGap sc.now plan.now }
    requires in_place { AreInPlace sc.now ([] ∷ []) (map shape_of plan.now.nodes) }
{
    let mut out = Vec::from_slice(alloc, b"!")?;
    print_gap(&mut out, sc, plan)?;
    Ok(out.strip_prefix(b"!") == Some(text.as_bytes()))
}

// Whether a text is a gap plan's, and the gap plan prints back to the same bytes.
fn prints(alloc: Global, sc: &Scenario, text: &str) -> Result<bool, Fail> {
    match read_gap(alloc, sc, text.as_bytes()) {
        Ok(plan) => prints_to(alloc, sc, &plan, text),
        Err(_) => Ok(false),
    }
}

// The same, and by pieces it tells what reading it at once says.
fn prints_and_tells(alloc: Global, sc: &Scenario, text: &str) -> Result<bool, Fail> {
    Ok(prints(alloc, sc, text)? && tells_gap_as_read(alloc, sc, text.as_bytes())?)
}

fn prints_back(alloc: Global, row: &str) -> Result<bool, Fail> {
    match row.split_once('\n') {
        Some((words, text)) => asked(alloc, words, |sc| prints_and_tells(alloc, sc, text)),
        None => Ok(false),
    }
}

fn rows_that_print_back(alloc: Global, table: &str) -> Result<u32, Fail> {
    let mut count = 0u32;
    for row in table.split("== ") {
        if prints_back(alloc, row)? {
            count = count.saturating_add(1);
        }
    }
    Ok(count)
}

#[test]
fn gap_texts_print_back(rt: HostRuntime) -> Result<(), Fail> {
    assert_eq!(rt; rows_that_print_back(rt.alloc(), GAPS)?, 10);
    Ok(())
}

// Whether a text has this fault, told as line and kind, and by pieces the same.
fn has_gap_fault(alloc: Global, sc: &Scenario, text: &[u8], fault: &str) -> Result<bool, Fail> {
    match read_gap(alloc, sc, text) {
        Err(PlanStop::Fault(PlanFault { line, kind })) => {
            let told = format!(in alloc; "{line} {}", plan_kind_name(kind))?;
            Ok(told.as_str() == fault && tells_gap_as_read(alloc, sc, text)?)
        }
        _ => Ok(false),
    }
}

// How many fronts of a text end early, in the line that they end in.
fn fronts_over(alloc: Global, sc: &Scenario, text: &[u8]) -> Result<usize, Fail> {
    let mut count = 0usize;
    for n in 0..text.len() {
        let front = &text[..n];
        let fault = format!(in alloc; "{} EarlyEnd", line_behind(front))?;
        if has_gap_fault(alloc, sc, front, &fault)? {
            count = count.saturating_add(1);
        }
    }
    Ok(count)
}

fn fronts_that_end_early(alloc: Global, text: &str) -> Result<usize, Fail> {
    asked(alloc, "ab 2", |sc| fronts_over(alloc, sc, text.as_bytes()))
}

#[test]
fn gap_fronts_end_early(rt: HostRuntime) -> Result<(), Fail> {
    assert_eq!(rt;
        fronts_that_end_early(rt.alloc(), TWO_WAIT)?,
        TWO_WAIT.len()
    );
    assert_eq!(rt;
        fronts_that_end_early(rt.alloc(), TWO_WAIT_2)?,
        TWO_WAIT_2.len()
    );
    Ok(())
}

fn are_of_version_2(alloc: Global, sc: &Scenario) -> Result<bool, Fail> {
    Ok(
        prints(alloc, sc, ONE_EXCHANGE)?
            && has_gap_fault(alloc, sc, ONE_EXCHANGE_1.as_bytes(), "7 BadLine")?,
    )
}

#[test]
fn exchanges_are_of_version_2(rt: HostRuntime) -> Result<(), Fail> {
    let alloc = rt.alloc();
    assert!(rt; asked(alloc, "ab 2", |sc| are_of_version_2(alloc, sc))?);
    Ok(())
}

fn families_are_apart(alloc: Global, sc: &Scenario) -> Result<bool, Fail> {
    Ok(
        has_gap_fault(alloc, sc, TWO_CELLS_2.as_bytes(), "1 BadLine")?
            && has_gap_fault(alloc, sc, TWO_WAIT_3.as_bytes(), "1 BadLine")?
            && has_fault(alloc, sc, TWO_WAIT.as_bytes(), "1 BadLine")?
            && has_fault(alloc, sc, TWO_WAIT_2.as_bytes(), "1 BadLine")?,
    )
}

// The text of a plan is none of a gap plan, and the other way round; and there are two versions.
#[test]
fn no_text_is_of_both_families(rt: HostRuntime) -> Result<(), Fail> {
    let alloc = rt.alloc();
    assert!(rt; asked(alloc, "ab 2", |sc| families_are_apart(alloc, sc))?);
    Ok(())
}
