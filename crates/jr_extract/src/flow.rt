// The graph of the body in which a run stands.
ghost use Rattle.std.specs.Prelude.{◌≡◌, IfErr, IfOk};
ghost use Rattle.jr_extract.specs.Extracting as spec;

use jr_change::ChangeFault;
use jr_flow::{FlowFault, Graph, graph};
use jr_view::View;
use std::alloc::Global;

fn fault_of(fault: FlowFault) -> ChangeFault
    ensures { result ≡ spec.fault_of fault }
{
    match fault {
        FlowFault::TooManyPoints => ChangeFault::TooManyPoints,
        FlowFault::OutOfMemory => ChangeFault::OutOfMemory,
    }
}

/// The graph of the body that is declared at a row.
pub(crate) fn graph_of(alloc: Global, view: &View, body: u32) -> Result<Graph, ChangeFault>
    ensures ok { IfOk result (λ graph. spec.IsGraphMade view.now body graph) }
    ensures fault { IfErr result (λ fault. spec.IsGraphFault view.now body fault) }
{
    match graph(alloc, view, body) {
        Ok(made) => Ok(made),
        Err(fault) => Err(fault_of(fault)),
    }
}
