//! Laws of walks, of steps along walks, and of part sizes. Each law is the contract of an empty function.
ghost use Rattle.ipmi_bus.specs.Prelude.{DigitsAreFew, FoundIsRow, WalkExists, WalkIsUnique, RestIsWalk, TailIsWalk, StepsFollowGrowth, StepsFollowLog, StepsFollowWalk};

/// From each place of a shelf exactly one walk reaches an end.
#[tactic(auto, using(crate::proofs::WalkLaws::same_walk))]
pub fn one_walk_has_an_end()
    ensures exists { WalkExists }
    ensures unique { WalkIsUnique }
{}

/// A walk without its first row is a walk from the place after that row.
#[tactic(auto, using(crate::proofs::WalkLemmas::walk_tail))]
pub fn the_tail_is_a_walk()
    ensures { TailIsWalk }
{}

/// A record found on a well-formed shelf is a well-formed row.
pub fn what_is_found_is_a_row()
    ensures { FoundIsRow }
{}

/// If a walk ends with Done, then for each of its rows whose id is not 0000h, the walk from that id is the rest of
/// the walk from that row, and it ends with Done.
pub fn the_rest_is_a_walk()
    ensures { RestIsWalk }
{}

/// The steps of a cursor return the first rows of the walk from its start, in order, without gaps or repetitions.
/// This holds however often a step gives up or is refused, and whatever other requests the controller gets between
/// the steps.
#[tactic(auto, using(crate::proofs::StepsLaws::steps_follow))]
pub fn steps_follow_the_walk()
    ensures { StepsFollowWalk }
{}

/// If a walk that ends with Done only grows, the steps of a cursor return its records in order, each once and without
/// gaps. When there are no more, they returned the walk as it was at one moment.
pub fn steps_follow_a_growing_walk()
    ensures growth { StepsFollowGrowth }
    ensures log { StepsFollowLog }
{}

/// A part size has at most eight binary digits, so it is reduced at most seven times.
#[tactic(auto, using(crate::proofs::DigitLemmas::digits_most))]
pub fn a_part_size_has_few_digits()
    ensures { DigitsAreFew }
{}
