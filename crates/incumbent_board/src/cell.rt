//! The cell of a board under its rule, and the kinds of step there.

ghost use Rattle.std.specs.Prelude.{◌≡◌, ◌-◌, ◌<◌, true, false, nat_eq, if◌then◌else◌, [], ◌∷◌, length, IfOk, MatchResult, IsTrue};
ghost use lib.Pointwise.{pointwise};
ghost use Rattle.crossbeam_utils.specs.Register.{Turns, Forks, Merges};
ghost use Rattle.crossbeam_utils.specs.Seq.{cell_view, IsSamePass};
ghost use Rattle.search_model.specs.Order.{better};
ghost use Rattle.incumbent_board.specs.History.{first_of, last_of};
ghost use Rattle.incumbent_board.specs.Words.{words_of};
ghost use Rattle.incumbent_board.specs.Rule.{ALL, sight, cell_of, IsKept, joined as joined_lem, FitsWords, Looks, Weighs, Places, Closes};

use crate::sight::Sight;
use crate::six_words::BLANK;
use atomic_table::{Join, Split};
use crossbeam_utils::atomic::seq_cell::{Pass, RuledSeqCell};
use crossbeam_utils::rule::{Outcome, Protocol};
use exact_parts::NoMemory;
use search_model::Standing;
use std::alloc::Global;
use std::marker::{Brand, PhantomData};
use std::sync::Wait;

/// The rule of a board's cell: one history.
pub struct OneHistory;

impl Protocol<[u64; 6], Sight> for OneHistory {
    ghost use Rattle.std.specs.Prelude.{[]};
    ghost use Rattle.incumbent_board.specs.Rule.{ALL, sight, IsKept};

    ghost holds = { IsKept };

    ghost first = { sight ALL [] [] [] [] };
}

/// A standing, and the words that the cell is expected to hold. Each call picks them.
pub trait Offered {
    ghost use Rattle.std.specs.Prelude.{List, ℕ};
    ghost use Rattle.search_model.specs.declared.standing.Standing.{Standing};

    ghost offer: { Standing };

    ghost expected: { List ℕ };
}

impl Offered for Brand {
    ghost use Rattle.std.specs.Prelude.{[]};
    ghost use Rattle.incumbent_board.specs.History.{nowhere};

    ghost offer = { nowhere };

    ghost expected = { [] };
}

/// What a load tells a look.
pub struct LookStep;

impl Outcome<[u64; 6], Sight> for LookStep {
    ghost use Rattle.incumbent_board.specs.Rule.{Looks};

    ghost then = { Looks };
}

/// What a load tells of an offer.
pub struct WeighStep<S: Offered>(PhantomData<S>);

impl<S: Offered> Outcome<[u64; 6], Sight> for WeighStep<S> {
    ghost use Rattle.incumbent_board.specs.Rule.{Weighs};

    ghost then = { Weighs S.offer };
}

/// What a try to replace tells, whether it failed or not.
pub struct TryStep<S: Offered>(PhantomData<S>);

impl<S: Offered> Outcome<[u64; 6], Sight> for TryStep<S> {
    ghost use Rattle.incumbent_board.specs.Rule.{Tries};

    ghost then = { Tries S.expected S.offer };
}

/// What a load tells a pass that stands for all seats.
pub struct CloseStep;

impl Outcome<[u64; 6], Sight> for CloseStep {
    ghost use Rattle.incumbent_board.specs.Rule.{Closes};

    ghost then = { Closes };
}

/// How the history begins: a pass that stands for all seats and has seen nothing hands them on with the first standing.
pub struct Begins<S: Offered>(PhantomData<S>);

impl<S: Offered> Split<Sight> for Begins<S> {
    ghost use Rattle.std.specs.Prelude.{[], ◌∷◌};
    ghost use Rattle.incumbent_board.specs.Rule.{ALL, sight, spent};

    ghost left = { λ _. spent };

    ghost right = { λ _. sight ALL (S.offer ∷ []) [] [] [] };
}

/// How a pass gives one of its seats away, with a copy of what it has seen.
pub struct Deals;

impl Split<Sight> for Deals {
    ghost use Rattle.std.specs.Prelude.{[], ◌-◌};
    ghost use Rattle.incumbent_board.specs.Rule.{sight};

    ghost left = { λ v. sight (v.seats - 1) v.seen v.told v.placed v.behind };

    ghost right = { λ v. sight 1 v.seen [] [] [] };
}

/// How a pass hands all on that it knows: a pass that has made calls isn't joined as it stands.
pub struct CutsOff;

impl Split<Sight> for CutsOff {
    ghost use Rattle.incumbent_board.specs.Rule.{spent};

    ghost left = { λ _. spent };

    ghost right = { λ v. v };
}

/// How a pass takes in another.
pub struct Joins;

impl Join<Sight> for Joins {
    ghost use Rattle.incumbent_board.specs.Rule.{joined, spent as nothing};

    ghost both = { joined };

    ghost spent = { nothing };
}

/// Six words under the rule.
pub type Cell = RuledSeqCell<[u64; 6], Sight, OneHistory, 6>;

/// What a seat knows of the cell. It has no bytes.
pub type Place = Pass<[u64; 6], Sight>;

// A blank cell with no history, and a pass that stands for all seats.
#[tactic(auto, using(crate::proofs::Steps::begins))]
fn make_blank(alloc: Global) -> Result<(Cell, Place), NoMemory>
    ensures cell { IfOk result (λ c. c.1.table_id ≡ c.0.table.shared.table_id) }
    ensures view { IfOk result (λ c. cell_view c.1 ≡ sight ALL [] [] [] []) }
{
    Ok(Cell::ruled(alloc, BLANK)?)
}

// A pass hands on a part of what it knows.
fn split_step<M: Split<Sight>>(cell: &Cell, place: &mut Place) -> Place
    requires cell { place.old.table_id ≡ cell.now.table.shared.table_id }
    requires rule { let v = cell_view place.old in Forks IsKept place.old.id v (M.left v) (M.right v) }
    ensures kept { IsSamePass place.old place.new × (cell_view place.new ≡ M.left (cell_view place.old)) }
    ensures given { (result.table_id ≡ place.old.table_id) × (cell_view result ≡ M.right (cell_view place.old)) }
    ensures unused { result.me.1 ≡ [] }
{
    cell.split_pass::<M>(place)
}

// A pass takes in another that has made no calls.
fn join_step<M: Join<Sight>>(cell: &Cell, place: &mut Place, other: Place)
    requires cell { (place.old.table_id ≡ cell.now.table.shared.table_id) × (other.table_id ≡ place.old.table_id) }
    requires unused { other.me.1 ≡ [] }
    requires rule { let v = cell_view place.old in let w = cell_view other in
        Merges IsKept place.old.id v other.id w (M.both v w) M.spent }
    ensures same { IsSamePass place.old place.new }
    ensures joined { cell_view place.new ≡ M.both (cell_view place.old) (cell_view other) }
{
    cell.join_pass::<M>(place, other);
}

// A load, which tells the pass what `M` says.
fn load_step<M: Outcome<[u64; 6], Sight>, R: Wait>(
    rt: &R,
    cell: &Cell,
    place: &mut Place,
) -> [u64; 6]
    requires cell { place.old.table_id ≡ cell.now.table.shared.table_id }
    requires rule { Turns IsKept place.old.id (cell_view place.old) (λ x. x) M.then }
    ensures same { IsSamePass place.old place.new }
    ensures tells { M.then (cell_view place.old) result result (cell_view place.new) }
{
    cell.load_as::<M, R>(rt, place)
}

// A try to replace, which tells the pass what `M` says.
fn try_step<M: Outcome<[u64; 6], Sight>, R: Wait>(
    rt: &R,
    cell: &Cell,
    place: &mut Place,
    expected: [u64; 6],
    words: [u64; 6],
) -> Result<[u64; 6], [u64; 6]>
    requires cell { place.old.table_id ≡ cell.now.table.shared.table_id }
    requires rule { Turns IsKept place.old.id (cell_view place.old)
        (λ x. if pointwise nat_eq x expected then words else x) M.then }
    ensures same { IsSamePass place.old place.new }
    ensures tells { MatchResult result
        (λ x. (pointwise nat_eq x expected ≡ true) × M.then (cell_view place.old) x words (cell_view place.new))
        (λ x. (pointwise nat_eq x expected ≡ false) × M.then (cell_view place.old) x x (cell_view place.new)) }
{
    cell.compare_exchange_as::<M, R>(rt, place, expected, words)
}

// A blank cell whose history begins with the standing that the call picks.
fn open_as<S: Offered>(alloc: Global, first: &Standing) -> Result<(Cell, Place), NoMemory>
    requires { first.now ≡ S.offer }
    ensures cell { IfOk result (λ c. c.1.table_id ≡ c.0.table.shared.table_id) }
    ensures view { IfOk result (λ c. cell_view c.1 ≡ sight ALL (first.now ∷ []) [] [] []) }
{
    let (cell, mut pass) = make_blank(alloc)?;
    let place = split_step::<Begins<S>>(&cell, &mut pass);
    Ok((cell, place))
}

/// A blank cell whose history begins with a standing, and a pass that stands for all seats.
pub fn open(alloc: Global, first: &Standing) -> Result<(Cell, Place), NoMemory>
    ensures cell { IfOk result (λ c. c.1.table_id ≡ c.0.table.shared.table_id) }
    ensures view { IfOk result (λ c. cell_view c.1 ≡ sight ALL (first.now ∷ []) [] [] []) }
{
    open_as::<Brand>(alloc, first)
}

/// Gives one of a pass's seats away.
pub fn deal(cell: &Cell, place: &mut Place) -> Place
    requires cell { place.old.table_id ≡ cell.now.table.shared.table_id }
    requires two { 1 < (cell_view place.old).seats }
    ensures same { IsSamePass place.old place.new × (result.table_id ≡ place.old.table_id) }
    ensures left { let v = cell_view place.old in cell_view place.new ≡
        sight (v.seats - 1) v.seen v.told v.placed v.behind }
    ensures dealt { cell_view result ≡ sight 1 (cell_view place.old).seen [] [] [] }
{
    split_step::<Deals>(cell, place)
}

/// Loads the words.
pub fn look_at<R: Wait>(rt: &R, cell: &Cell, place: &mut Place) -> [u64; 6]
    requires cell { place.old.table_id ≡ cell.now.table.shared.table_id }
    requires some { 0 < (cell_view place.old).seats }
    ensures same { IsSamePass place.old place.new }
    ensures looks { Looks (cell_view place.old) result result (cell_view place.new) }
{
    load_step::<LookStep, R>(rt, cell, place)
}

// Loads the words for the offer that the call picks.
fn weigh_as<S: Offered, R: Wait>(
    rt: &R,
    cell: &Cell,
    place: &mut Place,
    offer: &Standing,
) -> [u64; 6]
    requires cell { place.old.table_id ≡ cell.now.table.shared.table_id }
    requires picked { offer.now ≡ S.offer }
    requires some { 0 < (cell_view place.old).seats }
    ensures same { IsSamePass place.old place.new }
    ensures weighs { Weighs offer.now (cell_view place.old) result result (cell_view place.new) }
{
    load_step::<WeighStep<S>, R>(rt, cell, place)
}

/// Loads the words for an offer, which is behind where they show it to be.
pub fn weigh<R: Wait>(rt: &R, cell: &Cell, place: &mut Place, offer: &Standing) -> [u64; 6]
    requires cell { place.old.table_id ≡ cell.now.table.shared.table_id }
    requires some { 0 < (cell_view place.old).seats }
    ensures same { IsSamePass place.old place.new }
    ensures weighs { Weighs offer.now (cell_view place.old) result result (cell_view place.new) }
{
    weigh_as::<Brand, R>(rt, cell, place, offer)
}

// Tries to replace the words that the call picks by those of the offer that it picks.
fn try_place_as<S: Offered, R: Wait>(
    rt: &R,
    cell: &Cell,
    place: &mut Place,
    expected: [u64; 6],
    words: [u64; 6],
    offer: &Standing,
) -> Result<[u64; 6], [u64; 6]>
    requires cell { place.old.table_id ≡ cell.now.table.shared.table_id }
    requires picked { (expected ≡ S.expected) × (offer.now ≡ S.offer) }
    requires words { words ≡ words_of offer.now }
    requires seen { (0 < (cell_view place.old).seats) × (0 < length (cell_view place.old).seen) }
    requires offer { FitsWords (first_of (cell_view place.old).seen) offer.now }
    requires shown { expected ≡ cell_of (cell_view place.old).seen }
    requires better { IsTrue (better offer.now (last_of (cell_view place.old).seen)) }
    ensures same { IsSamePass place.old place.new }
    ensures tried { MatchResult result
        (λ _. Places offer.now (cell_view place.old) (cell_view place.new))
        (λ x. Weighs offer.now (cell_view place.old) x x (cell_view place.new)) }
{
    try_step::<TryStep<S>, R>(rt, cell, place, expected, words)
}

/// Tries to replace the words that a pass has seen by those of a better offer: `Ok` where it did, and else the words that
/// it met, which may show the offer to be behind.
pub fn try_place<R: Wait>(
    rt: &R,
    cell: &Cell,
    place: &mut Place,
    expected: [u64; 6],
    words: [u64; 6],
    offer: &Standing,
) -> Result<[u64; 6], [u64; 6]>
    requires cell { place.old.table_id ≡ cell.now.table.shared.table_id }
    requires words { words ≡ words_of offer.now }
    requires seen { (0 < (cell_view place.old).seats) × (0 < length (cell_view place.old).seen) }
    requires offer { FitsWords (first_of (cell_view place.old).seen) offer.now }
    requires shown { expected ≡ cell_of (cell_view place.old).seen }
    requires better { IsTrue (better offer.now (last_of (cell_view place.old).seen)) }
    ensures same { IsSamePass place.old place.new }
    ensures tried { MatchResult result
        (λ _. Places offer.now (cell_view place.old) (cell_view place.new))
        (λ x. Weighs offer.now (cell_view place.old) x x (cell_view place.new)) }
{
    try_place_as::<Brand, R>(rt, cell, place, expected, words, offer)
}

/// Takes all that a pass knows into another.
pub fn join(cell: &Cell, place: &mut Place, mut other: Place)
    requires cell { (place.old.table_id ≡ cell.now.table.shared.table_id) × (other.table_id ≡ place.old.table_id) }
    requires some { 0 < (cell_view place.old).seats }
    ensures same { IsSamePass place.old place.new }
    ensures joined { cell_view place.new ≡ joined_lem (cell_view place.old) (cell_view other) }
{
    let whole = split_step::<CutsOff>(cell, &mut other);
    join_step::<Joins>(cell, place, whole);
}

/// Loads the words with a pass that stands for all seats.
pub fn last_look<R: Wait>(rt: &R, cell: &Cell, place: &mut Place) -> [u64; 6]
    requires cell { place.old.table_id ≡ cell.now.table.shared.table_id }
    requires all { (cell_view place.old).seats ≡ ALL }
    ensures closes { Closes (cell_view place.old) result result (cell_view place.new) }
{
    load_step::<CloseStep, R>(rt, cell, place)
}
