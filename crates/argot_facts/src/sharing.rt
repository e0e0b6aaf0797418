// What workers share.

use crate::graphs::Graph;
use crate::pointing::Points;
use crate::summaries::Summaries;

fn needs_sharing<T: Send + Sync>(_shared: &T) {}

/// Workers may share a graph, its summaries and what references refer to: the check of this function shows that these
/// types are `Send` and `Sync`.
pub fn may_be_shared(graph: &Graph, points: &Points, summaries: &Summaries) {
    needs_sharing(graph);
    needs_sharing(points);
    needs_sharing(summaries);
}
