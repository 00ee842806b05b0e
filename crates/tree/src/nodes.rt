// The nodes of a tree, numbered from the root down and across.
ghost use Rattle.std.specs.Prelude.{◌≡◌, ◌≤◌, max};
ghost use Rattle.tree.specs.Trees.{parent, depth, tree_distance, in_subtree, ancestor};

// The parent of node `n`, and 0 for the root.
pub(crate) fn parent_of(n: usize) -> usize
    ensures { result ≡ parent n }
{
    n.saturating_sub(1) / 2
}

// The depth of node `n`. Kept as a table, since `ilog2` would need a bound on `n`, a sum and a cast.
pub(crate) fn depth_of(n: usize) -> usize
    ensures { result ≡ depth n }
{
    match n {
        0 => 0,
        1..=2 => 1,
        3..=6 => 2,
        7..=14 => 3,
        15..=30 => 4,
        _ => 5,
    }
}

// The hops from `n` to `d`: the larger of the two climbs to its parent until they meet.
pub(crate) fn hops_between(n: usize, d: usize) -> usize
    ensures is { result ≡ tree_distance n d }
    ensures small { result ≤ max n d }
{
    if n == d {
        0
    } else {
        hops_between(parent_of(n.max(d)), n.min(d)) + 1
    }
}

// Whether `d` is `top` or stands below it.
pub(crate) fn in_subtree(top: usize, d: usize) -> bool
    ensures { result ≡ in_subtree top d }
{
    top == d || (top < d && in_subtree(top, parent_of(d)))
}

// Whether `d` stands below `n`.
pub(crate) fn is_ancestor(n: usize, d: usize) -> bool
    ensures { result ≡ ancestor n d }
{
    n != d && in_subtree(n, d)
}
