//! How large works are.

ghost use Rattle.std.specs.Prelude.{◌≡◌};
ghost use Rattle.ic_round.specs.WorkViews.{work_of};
ghost use Rattle.ic_crew.specs.Sizes.{work_size};

use ic_round::Work;
use ic_rules::RuleSet;
use ic_term::nodes_of_terms;

/// At this number sizes and their sums stop.
pub const MAX_SIZE: u64 = u64::MAX;

/// The nodes of a work's two cells and those of its rule's arguments.
pub(crate) fn size_of(rules: &RuleSet, work: &Work) -> u64
    ensures { result ≡ work_size rules.now.rules (work_of work.now) }
{
    let cells = work.left.nodes().saturating_add(work.right.nodes());
    match rules.rules().get(work.rule) {
        None => cells,
        Some(rule) => cells
            .saturating_add(nodes_of_terms(rule.left_args()))
            .saturating_add(nodes_of_terms(rule.right_args())),
    }
}
