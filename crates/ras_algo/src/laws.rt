//! Laws of the definitions that contracts cite. The functions do nothing: the contract is the law.
ghost use Rattle.ras_algo.specs.Algo.{CommonAncestorIsDeepest};

/// The common ancestor in the contract of `algo::least_common_ancestor` is an ancestor of both
/// nodes, and each node that is an ancestor of both is one of its ancestors, where a node counts as
/// its own ancestor.
pub fn common_ancestor_is_deepest()
    ensures { CommonAncestorIsDeepest }
{}
