//! Values that may go from thread to thread.
use section_pairs::{Findings, GapPair};
use strip_graph::{SpanStep, Spans};

fn crosses_threads<T: Send + Sync>() {}

#[test]
fn values_cross_threads(_rt: HostRuntime) {
    crosses_threads::<SpanStep>();
    crosses_threads::<Spans<'static>>();
    crosses_threads::<GapPair>();
    crosses_threads::<Findings>();
}
